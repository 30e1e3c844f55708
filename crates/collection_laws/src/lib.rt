// The calls of a collection and their answers. Their rules are in specs/, the law of runs in specs/ and proofs/.
#![tactic(auto)]

mod answer;
mod call;

pub use answer::{Answer, Fault, Loaded, LookedUp, Ordered};
pub use call::{Call, Opening};
