// Learning: from a false clause to a clause that the clauses held imply, and where the search goes on.
#![tactic(auto)]

mod activities;
mod analysis;
mod backjump;
mod learnt_clause;
mod lesson;
mod marks;
mod minimization;
mod restarts;

pub use backjump::{recover, reduce};
pub use lesson::study;
