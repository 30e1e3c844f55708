// The clauses held: reading and writing their literals, whether they are well formed, dropping learnt ones.
#![tactic(auto)]

mod form;
mod literals;
mod reduction;

pub use form::well_formed;
pub use literals::{literal, write_literal};
pub use reduction::{FULL, compact, length_kept};
