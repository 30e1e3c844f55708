// An entry of a collection.
ghost use Rattle.std.specs.Prelude.{◌≡◌, IfSome};
ghost use Rattle.std.proofs.Props.{props};
ghost use Rattle.filing.specs.Filing.{key_question, Keepable};
ghost use Rattle.filing.specs.Props.{ordered_prop};
ghost use Rattle.entry.specs.Bounds.{LowerBound};

use filing::Key;
use mig::{Limits, Network};

// What is kept of a key: a lower number, below which no network meets the key's question, and perhaps a network.
#[derive(Clone, Copy)]
pub struct Entry {
    pub key: Key,
    pub lower: u8,
    pub network: Option<Network>,
    ghost lower_bound: { LowerBound (key_question key) lower },
    ghost keepable: { IfSome network (Keepable key) } by { Prim.hlevel (props, ordered_prop) },
}

impl Entry {
    ghost use Rattle.entry.specs.Held.{held, nothing, upper, is_settled};

    // A new entry: nothing is known of its key.
    pub fn new(key: Key) -> Entry
        ensures key { result.key ≡ key }
        ensures nothing_known { held result ≡ nothing }
    {
        Entry {
            key,
            lower: 0,
            network: None,
        }
    }

    // The number of gates of the kept network, if one is kept.
    pub fn upper(&self) -> Option<u8>
        ensures { result ≡ upper (held self.now) }
    {
        self.network.map(|network| network.count)
    }

    // Whether the kept network has as many gates as the lower number says.
    pub fn is_settled(&self) -> bool
        ensures { result ≡ is_settled (held self.now) }
    {
        self.upper() == Some(self.lower)
    }
}

// The new entry of the key of zeros: what stands in the places of a table that are not in use.
impl Default for Entry {
    ghost use Rattle.entry.specs.Held.{held, nothing};

    ghost is_default = { λ e. held e ≡ nothing };

    fn default() -> Entry {
        Entry::new(Key {
            table: 0,
            limits: Limits {
                depth: 0,
                fan_out: 0,
            },
        })
    }
}
