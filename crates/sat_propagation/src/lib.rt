// Propagation: what follows from the clauses and the values.
#![tactic(auto)]

mod clause_state;
mod propagation;
mod unit;
mod watches;

pub use clause_state::{ClauseState, look};
pub use propagation::propagate;
pub use unit::infer;
pub use watches::{watch_all, watch_clause};
