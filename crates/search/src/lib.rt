// What a search is, and the refusals and the count that every search shares.
#![tactic(auto)]

mod admission;
mod count;
mod search;

pub use admission::check_ask;
pub use count::Count;
pub use search::Search;
