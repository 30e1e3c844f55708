// The clauses of a question and exactly so many gates: those of the question, and the symmetry clauses, given to a sink one
// after another.
#![tactic(auto)]

mod fan_ins;
mod gates;
mod generator;
mod inputs;
mod naming;
mod symmetry;

pub use generator::generate_exact;
