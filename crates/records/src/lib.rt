// Networks as records of bytes: reading them one after another, and writing one.
#![tactic(auto)]

mod faults;
mod reader;
mod reading;
mod writing;

pub use faults::layer;
pub use reader::{Part, Reader};
pub use reading::{Record, read_network};
pub use writing::encode;
