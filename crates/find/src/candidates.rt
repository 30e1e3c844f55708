// The gates that are tried behind the nodes that stand, in the order of their candidates.
ghost use Rattle.std.specs.Prelude.{◌≡◌, ◌+◌, ◌≤◌};
ghost use Rattle.gate_order.specs.Candidates.{IsCandidate, Before, NamesBelow};
ghost use Rattle.gate_order.specs.declared.Candidate.{Candidate};
ghost use Rattle.find.specs.Candidates.{IsAtCandidate, GivesCandidate, ranks_left};
ghost use Rattle.std.specs.Iterator.{at_most};

use crate::nodes::Nodes;
use gate_order::Candidate;
use mig::Gate;

// The gates of the candidates from the next one on.
#[derive(Drop)]
pub(crate) struct Candidates {
    nodes: Nodes,
    next: Option<Candidate>,
}

impl Candidates {
    // All candidates; where one gate is left behind others, those from the first on that names the newest node.
    pub(crate) fn behind(nodes: Nodes, left: u8) -> Candidates
        ensures nodes { result.nodes ≡ nodes }
        ensures at_candidate { IsAtCandidate result }
        ensures skips_older { (x : Candidate) → IsCandidate nodes.inputs (nodes.inputs + 1 + nodes.gates) x
            → Before x result.next → (left ≡ 1) × (1 ≤ nodes.gates) × NamesBelow (nodes.inputs + nodes.gates) x }
    {
        let third = if left == 1 && nodes.gates > 0 {
            nodes.inputs + nodes.gates
        } else {
            2
        };
        Candidates {
            nodes,
            next: nodes.first_naming(third.max(2)),
        }
    }
}

impl Iterator for Candidates {
    type Item = Gate;

    ghost can_next = { IsAtCandidate };

    ghost next_gives = { GivesCandidate };

    ghost remaining = { λ s. at_most (ranks_left s.next) };

    fn next(&mut self) -> Option<Gate> {
        let candidate = self.next?;
        self.next = self.nodes.following(candidate);
        Some(self.nodes.gate(candidate))
    }
}
