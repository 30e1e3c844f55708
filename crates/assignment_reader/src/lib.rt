// An assignment of the clauses' variables to the network that it tells.
#![tactic(auto)]

mod bits;
mod clause_check;
mod read_back;

pub use read_back::read_assignment;
