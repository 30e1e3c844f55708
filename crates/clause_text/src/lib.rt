// The clauses of a question and a number of gates as text.
#![tactic(auto)]

mod bytes;
mod decimal;
mod head;
mod length;
mod text;
mod writer;

pub use text::{clause_text, clause_text_length};
