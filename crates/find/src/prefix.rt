// Prefixes: the gates that are placed, with the last node as output, and the column of each code over them.
ghost use Rattle.std.specs.Prelude.{◌≡◌, ◌+◌, ◌<◌, ◌≤◌, [], Decides};
ghost use Rattle.mig.specs.Networks.{network_of};
ghost use Rattle.enumeration_laws.specs.Limits.{InLimits, one_lower};
ghost use Rattle.enumeration_laws.specs.Placed.{placed, IsPrefix};
ghost use Rattle.enumeration_laws.specs.Prefixes.{without_gates};

use crate::columns::start_columns;
use crate::limits::within_limits;
use crate::nodes::Nodes;
use crate::valid_question::ValidQuestion;
use mig::{Limits, Network};
use value_kinds::Column;

// The first gates of networks that may meet the question.
// By a rule of the project no memory is allocated, so the columns have a place for each code that a network can have.
#[derive(Clone, Copy)]
pub(crate) struct Prefix {
    pub(crate) asked: ValidQuestion,
    pub(crate) network: Network,
    pub(crate) columns: [Column; 24],
    ghost few: { network.count ≤ 4 },
    ghost is_prefix: { IsPrefix asked.question.inputs network columns },
}

// The network without gates whose output is the code.
pub(crate) fn without_gates(output: u8) -> Network
    ensures { result ≡ network_of (without_gates output) }
{
    Network {
        output,
        ..Network::default()
    }
}

impl Prefix {
    // The prefix without gates.
    pub(crate) fn empty(asked: ValidQuestion) -> Prefix
        ensures question { result.asked ≡ asked }
        ensures gates { placed result.network ≡ [] }
        ensures count { result.network.count ≡ 0 }
    {
        Prefix {
            asked,
            network: without_gates(2 * asked.question.inputs),
            columns: start_columns(),
        }
    }

    // The nodes that stand.
    pub(crate) fn nodes(&self) -> Nodes
        ensures { (result.inputs ≡ self.now.asked.question.inputs) × (result.gates ≡ self.now.network.count) }
    {
        Nodes {
            inputs: self.asked.question.inputs,
            gates: self.network.count,
        }
    }

    // Whether the gates are within the limits, their level below the depth limit.
    pub(crate) fn is_below_limits(&self) -> bool
        ensures { let question = self.now.asked.question in
            Decides result (InLimits question.inputs (one_lower question.limits) self.now.network) }
    {
        let question = self.asked.question;
        let limits = Limits {
            depth: question.limits.depth.saturating_sub(1),
            ..question.limits
        };
        within_limits(question.inputs, limits, &self.network)
    }
}
