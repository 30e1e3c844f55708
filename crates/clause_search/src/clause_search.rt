// The clause search.
ghost use Rattle.std.specs.Prelude.{◌≡◌, length, None, IfOk};
ghost use Rattle.mig.specs.Rules.{refused_by};
ghost use Rattle.clause_search.specs.Exact.{CanBeAsked, FoundUpTo};
ghost use Rattle.std.proofs.Common.{rules};

use crate::exact::exact_network;
use mig::{Network, Question, Refusal};
use search::{Count, Search};

// A search that writes the clauses of a question into the work words and has them solved, for one number of gates after another, the greatest first.
// It counts the questions that it has taken.
#[derive(Drop)]
pub struct ClauseSearch {
    count: Count,
}

impl ClauseSearch {
    // A search that has taken no question.
    pub fn new() -> ClauseSearch
        ensures { result.count.number ≡ 0 }
    {
        ClauseSearch {
            count: Count::new(),
        }
    }
}

// A network of at most so many gates that meets the question. Where so many gates are the fewest, as in an order, that is asked first.
fn network_within(
    question: &Question,
    gates: u8,
    words: &mut [u32],
) -> Result<Option<Network>, Refusal>
    requires can_be_asked { CanBeAsked question.now gates (length words.old) }
    ensures not_refused { refused_by result ≡ None }
    ensures found_exactly_when_a_network_exists { IfOk result (FoundUpTo question.now gates) }
{
    for fewer in 0..gates + 1 {
        let found = exact_network(question, gates - fewer, words)?;
        if found.is_some() {
            return Ok(found);
        }
    }
    Ok(None)
}

impl Search for ClauseSearch {
    ghost reach = { λ _. 7 };

    ghost need = { λ _. 131072 };

    ghost count = { λ s. s.count.number };

    ghost reach_at_most_seven = { Prim.search rules };

    ghost count_stops = { Prim.search rules };

    fn reach(&self) -> u8 {
        7
    }

    fn need(&self) -> usize {
        131072
    }

    fn count(&self) -> u32 {
        self.count.number()
    }

    // By a rule of the project the place and the words are lent.
    fn ask(
        &mut self,
        question: &Question,
        gates: u8,
        place: &mut Network,
        words: &mut [u32],
    ) -> Result<bool, Refusal> {
        self.check(question, gates, words.len())?;
        self.count.raise();
        let found = network_within(question, gates, words)?;
        if let Some(network) = found {
            *place = network;
        }
        Ok(found.is_some())
    }
}
