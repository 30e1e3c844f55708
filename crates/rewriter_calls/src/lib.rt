// The calls of a rewriter in C, on numbers and bytes: each answers 0, or the number of a refusal.
#![tactic(auto)]

mod examining;
mod writing;

pub use examining::examine_bytes;
pub use writing::write_clause_text;
