// The canonical networks that begin with given gates.
ghost use Rattle.std.specs.Prelude.{◌+◌, ◌≤◌};
ghost use Rattle.enumeration_laws.specs.Placed.{placed, FoundOr};
ghost use Rattle.enumeration_laws.specs.Prefixes.{NoneExtends};

use crate::candidates::Candidates;
use crate::prefix::Prefix;
use mig::Network;

impl Prefix {
    // A network that meets the question, where a canonical one is the prefix with at most `left` gates more.
    pub(crate) fn extend(&self, left: u8) -> Option<Network>
        requires { self.now.network.count + left ≤ 4 }
        ensures { let question = self.now.asked.question in let network = self.now.network in
            FoundOr (NoneExtends question (placed network) left) question (network.count + left) result }
    {
        if left == 0 || !self.is_below_limits() {
            return None;
        }
        for gate in Candidates::behind(self.nodes(), left) {
            let next = self.next_gate(gate);
            if let Some(output) = next.fitting_output() {
                return Some(next.with_output(output));
            }
            if left > 1
                && let Some(network) = next.placed().extend(left - 1)
            {
                return Some(network);
            }
        }
        None
    }
}
