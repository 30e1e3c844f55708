// Runs: calls of a collection one after another, with the law of every run.
#![tactic(auto)]

mod one_call;
mod opening;
mod running;

pub use one_call::perform;
pub use opening::open;
pub use running::run;
