// Majority networks over up to four inputs, the questions asked of them, and refusals.
#![tactic(auto)]

mod network;
mod question;
mod refusal;
mod text;

pub use network::{Gate, Network};
pub use question::{Limits, Question};
pub use refusal::Refusal;
