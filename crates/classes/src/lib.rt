// The class of a table: the smallest table that a way of carrying it reaches.
#![tactic(auto)]

mod candidate;
mod inverse;
mod least;
mod permutation;
mod tables;
mod way;

pub use least::{representative, way_to_representative};
pub use tables::{carry_table, lift_table};
pub use way::Way;
