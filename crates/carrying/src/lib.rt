// Networks raised to four inputs, cut to fewer, and carried by a way.
#![tactic(auto)]

mod carried;
mod lifting;
mod renaming;

pub use carried::carry_network;
pub use lifting::{cut_network, raise_network};
