// The clauses of a question and a number of gates: literals, and what takes clauses one after another.
#![tactic(auto)]

mod literal;
mod sink;

pub use literal::Literal;
pub use sink::ClauseSink;
