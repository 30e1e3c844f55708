// The calls of a collection.
use mig::{Network, Question};

// A call of a collection.
#[derive(Clone, Copy)]
pub enum Call<'a> {
    // A question, and the most gates that a network for it may have.
    Order {
        question: Question,
        gates: u8,
    },
    // A question, and a network that is to be kept for it.
    Deposit {
        question: Question,
        network: Network,
    },
    LookUp {
        question: Question,
    },
    Strike {
        question: Question,
    },
    // Records, each taken as a deposit.
    Load {
        bytes: &'a [u8],
    },
    Export,
}

// How a collection opens: empty, or with the starter set.
#[derive(Clone, Copy, Debug, PartialEq, Eq)]
pub enum Opening {
    Empty,
    WithStarters,
}
