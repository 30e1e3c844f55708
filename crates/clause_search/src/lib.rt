// The search that asks the solver of clauses.
#![tactic(auto)]

mod clause_count;
mod clause_search;
mod exact;
mod model;

pub use clause_search::ClauseSearch;
