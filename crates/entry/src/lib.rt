// What a collection keeps of a key: a lower number, and perhaps a network.
#![tactic(auto)]

mod entry;

pub use entry::Entry;
