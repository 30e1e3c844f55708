// Whether clauses have a model: conflict-driven search in words that the caller lends. It ends, takes no heap, and answers
// exactly; where there is a model, it is told.
#![tactic(auto)]

mod next;
mod search;
mod shape;
mod solving;

pub use shape::{Shape, literals_place, values_place};
pub use solving::{Answer, solve};
