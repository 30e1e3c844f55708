// The candidates for a gate, and the order in which they are tried. The definitions and laws are in specs/ and proofs/.
#![tactic(auto)]

// A fan-in of a gate.
#[derive(Clone, Copy)]
pub enum FanIn {
    First,
    Second,
    Third,
}

// A candidate for the next gate: three nodes in rising order, at most one of them complemented, or a gate's buffer.
#[derive(Clone, Copy)]
pub enum Candidate {
    Rising {
        first: u8,
        second: u8,
        third: u8,
        complemented: Option<FanIn>,
    },
    Buffer {
        source: u8,
    },
}
