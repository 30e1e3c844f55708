// The entries of a collection: at most 64, in the order of their keys.
#![tactic(auto)]

mod entries;

pub use entries::Entries;
