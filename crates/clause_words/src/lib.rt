// Clauses kept in words, as the solver reads them.
#![tactic(auto)]

mod words;

pub use words::ClauseWords;
