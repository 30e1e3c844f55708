// A collection read from bytes, and written to them.
#![tactic(auto)]

mod exports;
mod loads;

pub use exports::export;
pub use loads::load;
