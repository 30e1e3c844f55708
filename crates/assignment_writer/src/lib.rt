// A network as an assignment of the variables of the clauses of a question.
#![tactic(auto)]

mod assignment;
mod codes;
mod counts;
mod values;
mod writer;

pub use assignment::write_assignment;
