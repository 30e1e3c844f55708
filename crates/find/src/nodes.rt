// The nodes that stand, and the candidates for the next gate behind them.
ghost use Rattle.std.specs.Prelude.{◌≡◌, ◌+◌, ◌<◌, ◌≤◌};
ghost use Rattle.gate_order.specs.Candidates.{gate_of, IsCandidate, buffer_of, first_naming, next_nodes, following};

use gate_order::{Candidate, FanIn};
use mig::Gate;

// The constant, up to four inputs and up to four gates.
#[derive(Clone, Copy)]
pub(crate) struct Nodes {
    pub(crate) inputs: u8,
    pub(crate) gates: u8,
    ghost few_inputs: { inputs ≤ 4 },
    ghost few_gates: { gates ≤ 4 },
}

impl Nodes {
    // How many nodes stand.
    pub(crate) fn count(self) -> u8
        ensures { result ≡ self.inputs + 1 + self.gates }
    {
        self.inputs + 1 + self.gates
    }

    // The buffer of a node, if it stands.
    fn buffer_of(self, source: u8) -> Option<Candidate>
        ensures { result ≡ buffer_of (self.inputs + 1 + self.gates) source }
    {
        (source < self.count()).then_some(Candidate::Buffer { source })
    }

    // The first candidate with a third node; where that does not stand, the first buffer, if there is one.
    pub(crate) fn first_naming(self, third: u8) -> Option<Candidate>
        ensures { result ≡ first_naming self.inputs (self.inputs + 1 + self.gates) third }
    {
        if third >= self.count() {
            return self.buffer_of(self.inputs + 1);
        }
        Some(Candidate::Rising {
            first: 0,
            second: 1,
            third,
            complemented: None,
        })
    }

    // The first candidate with other nodes behind those of three nodes.
    fn next_nodes(self, first: u8, second: u8, third: u8) -> Option<Candidate>
        requires { (first < second) × (second < third) × (third < 9) }
        ensures { result ≡ next_nodes self.inputs (self.inputs + 1 + self.gates) first second third }
    {
        let (first, second) = if first + 1 < second {
            (first + 1, second)
        } else if second + 1 < third {
            (0, second + 1)
        } else {
            return self.first_naming(third + 1);
        };
        Some(Candidate::Rising {
            first,
            second,
            third,
            complemented: None,
        })
    }

    // The candidate behind another, if there is one.
    // That it is a candidate is asked here and in `gate`: as a fact of its type it would need the nodes in the type.
    pub(crate) fn following(self, candidate: Candidate) -> Option<Candidate>
        requires { IsCandidate self.inputs (self.inputs + 1 + self.gates) candidate }
        ensures { result ≡ following self.inputs (self.inputs + 1 + self.gates) candidate }
    {
        match candidate {
            Candidate::Rising {
                first,
                second,
                third,
                complemented,
            } => {
                let complemented = match complemented {
                    None => FanIn::First,
                    Some(FanIn::First) => FanIn::Second,
                    Some(FanIn::Second) => FanIn::Third,
                    Some(FanIn::Third) => return self.next_nodes(first, second, third),
                };
                Some(Candidate::Rising {
                    first,
                    second,
                    third,
                    complemented: Some(complemented),
                })
            }
            Candidate::Buffer { source } => self.buffer_of(source + 1),
        }
    }

    // The gate of a candidate.
    pub(crate) fn gate(self, candidate: Candidate) -> Gate
        requires { IsCandidate self.inputs (self.inputs + 1 + self.gates) candidate }
        ensures { result ≡ gate_of candidate }
    {
        match candidate {
            Candidate::Rising {
                first,
                second,
                third,
                complemented,
            } => {
                let mut gate = Gate {
                    first: 2 * first,
                    second: 2 * second,
                    third: 2 * third,
                };
                match complemented {
                    None => {}
                    Some(FanIn::First) => gate.first += 1,
                    Some(FanIn::Second) => gate.second += 1,
                    Some(FanIn::Third) => gate.third += 1,
                }
                gate
            }
            Candidate::Buffer { source } => Gate {
                first: 0,
                second: 1,
                third: 2 * source,
            },
        }
    }
}
