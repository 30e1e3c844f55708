// Whether a network of at most four gates meets a question: all canonical ones are tried, gate by gate.
#![tactic(auto)]

mod candidates;
mod columns;
mod extend;
mod finding;
mod limits;
mod next_gate;
mod nodes;
mod prefix;
mod valid_question;

pub use finding::find_network;
