// The search that tries all canonical networks of at most four gates.
#![tactic(auto)]

mod enumeration;

pub use enumeration::Enumeration;
