// The clauses of a question and a number of gates, given to a sink one after another.
#![tactic(auto)]

mod choices;
mod fan_outs;
mod generator;
mod levels;
mod literals;
mod numbering;
mod output;
mod values;

pub use generator::{generate, variable_count};
pub use literals::{neg, pos};
pub use numbering::Numbering;
