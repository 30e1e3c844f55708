// A layer over any search, which answers "none" itself where a table depends on too many inputs.
#![tactic(auto)]

mod bounds;
mod layer;

pub use bounds::beyond_bounds;
pub use layer::BoundLayer;
