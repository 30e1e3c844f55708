// What the calls of a collection are answered.
ghost use Rattle.std.specs.Prelude.{◌≡◌};

use mig::{Network, Refusal};
use records::layer;

// The answer to an order: whether a network is given, the lower number, and how many numbers of gates were asked.
#[derive(Clone, Copy, Debug, PartialEq, Eq)]
pub struct Ordered {
    pub given: bool,
    pub lower: u8,
    pub asked: u8,
}

// The answer to a look-up: the lower number, and the gates of the kept network, if one is kept.
#[derive(Clone, Copy, Debug, PartialEq, Eq)]
pub struct LookedUp {
    pub lower: u8,
    pub upper: Option<u8>,
}

// Where a load stopped: the refusal, and the place of the record that it met.
#[derive(Clone, Copy, Debug, PartialEq, Eq)]
pub struct Fault {
    pub refusal: Refusal,
    pub place: usize,
}

// The answer to a load: how many records were taken, how many were passed over since a network with no more gates is kept,
// and the fault that ended it, if there was one.
#[derive(Clone, Copy, Debug, PartialEq, Eq)]
pub struct Loaded {
    pub taken: usize,
    pub passed: usize,
    pub fault: Option<Fault>,
}

impl Loaded {
    ghost use Rattle.collection_laws.specs.Faults.{fault_numbers};

    // The number, the layer and the place of the fault; all 0 without a fault.
    pub fn fault_numbers(&self) -> (u8, u8, usize)
        ensures { result ≡ fault_numbers self.now }
    {
        match self.fault {
            Some(Fault { refusal, place }) => (refusal.number(), layer(refusal), place),
            None => (0, 0, 0),
        }
    }
}

// The answer to a call of a run. Networks stand in the answers, since a run has many.
#[derive(Clone, Copy, Debug, PartialEq, Eq)]
pub enum Answer {
    // The network of an order, the lower number, and how many numbers were asked.
    Given {
        network: Network,
        lower: u8,
        asked: u8,
    },
    // An order for which there is no network.
    NoneWithin {
        lower: u8,
        asked: u8,
    },
    // The gates of the network that is now kept.
    Deposited {
        gates: u8,
    },
    // The lower number, and the upper number and the kept network as one for the question, if one is kept.
    Known {
        lower: u8,
        kept: Option<(u8, Network)>,
    },
    Struck,
    Loaded(Loaded),
    // How many bytes were written.
    Exported {
        bytes: usize,
    },
}
