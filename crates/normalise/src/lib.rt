// The normal form of a network: no gate has more than one complemented fan-in.
#![tactic(auto)]

mod codes;
mod normal_form;

pub use normal_form::normalise;
