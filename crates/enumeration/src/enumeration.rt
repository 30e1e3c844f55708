// The enumeration as a search.
ghost use Rattle.std.specs.Prelude.{◌≡◌};
ghost use Rattle.std.proofs.Common.{rules};

use find::find_network;
use mig::{Network, Question, Refusal};
use search::{Count, Search};

// A search that tries the canonical networks one by one. It counts the questions that it has taken.
#[derive(Drop)]
pub struct Enumeration {
    count: Count,
}

impl Enumeration {
    // A search that has taken no question.
    pub fn new() -> Enumeration
        ensures { result.count.number ≡ 0 }
    {
        Enumeration {
            count: Count::new(),
        }
    }
}

impl Search for Enumeration {
    ghost reach = { λ _. 4 };

    ghost need = { λ _. 0 };

    ghost count = { λ s. s.count.number };

    ghost reach_at_most_seven = { Prim.search rules };

    ghost count_stops = { Prim.search rules };

    fn reach(&self) -> u8 {
        4
    }

    fn need(&self) -> usize {
        0
    }

    fn count(&self) -> u32 {
        self.count.number()
    }

    // By a rule of the project the place and the words are lent.
    fn ask(
        &mut self,
        question: &Question,
        gates: u8,
        place: &mut Network,
        words: &mut [u32],
    ) -> Result<bool, Refusal> {
        self.check(question, gates, words.len())?;
        self.count.raise();
        let found = find_network(question, gates)?;
        if let Some(network) = found {
            *place = network;
        }
        Ok(found.is_some())
    }
}
