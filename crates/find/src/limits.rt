// The limits of a question.
ghost use Rattle.std.specs.Prelude.{Decides};
ghost use Rattle.enumeration_laws.specs.Limits.{InLimits};

use fan_outs::greatest_fan_out;
use mig::{Limits, Network};
use outputs::level;

// Whether the network is well-formed and within the limits.
pub(crate) fn within_limits(inputs: u8, limits: Limits, network: &Network) -> bool
    ensures { Decides result (InLimits inputs limits network.now) }
{
    level(inputs, network).is_ok_and(|reached| reached <= limits.depth)
        && greatest_fan_out(inputs, network).is_ok_and(|most| most <= limits.fan_out)
}
