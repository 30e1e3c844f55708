// Questions filed under their class, and networks carried to the class and back.
#![tactic(auto)]

mod carrying_over;
mod filed;
mod key;

pub use carrying_over::{carry_in, carry_out};
pub use filed::Filed;
pub use key::Key;
