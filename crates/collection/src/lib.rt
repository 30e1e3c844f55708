// A collection of cells over any search: orders, deposits, look-ups and strikes.
#![tactic(auto)]

mod collection;
mod deposits;
mod giving;
mod look_ups;
mod orders;

pub use collection::Collection;
