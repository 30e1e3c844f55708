// Networks as they are kept under a key.
ghost use Rattle.std.specs.Prelude.{◌≡◌, IfOk};
ghost use Rattle.mig.specs.Networks.{net_of, network_of};
ghost use Rattle.mig.specs.Normal.{normalised};
ghost use Rattle.mig.specs.Rules.{refused_by, examine_refusal};
ghost use Rattle.filing.specs.Filing.{key_question, Keepable};
ghost use Rattle.std.proofs.Props.{props};
ghost use Rattle.filing.specs.Props.{ordered_prop};

use crate::key::Key;
use examine::examine;
use mig::{Network, Refusal};
use normalise::normalise;

// A network that meets the question of the key's class, in normal form.
#[derive(Clone, Copy)]
pub struct Filed {
    pub key: Key,
    pub network: Network,
    ghost keepable: { Keepable key network } by { Prim.hlevel (props, ordered_prop) },
}

impl Filed {
    // The network, normalised, under a key whose question it meets.
    pub fn new(key: Key, network: &Network) -> Result<Filed, Refusal>
        ensures refused_as_examined { refused_by result ≡ examine_refusal (key_question key) network.now }
        ensures key { IfOk result (λ f. f.key ≡ key) }
        ensures network_normalised { IfOk result (λ f. f.network ≡ network_of (normalised 4 (net_of network.now))) }
    {
        examine(&key.question(), network)?;
        Ok(Filed {
            key,
            network: normalise(4, network)?,
        })
    }
}
