// The layer: a search that stands over another.
ghost use Rattle.std.specs.Prelude.{◌≡◌};
ghost use Rattle.std.proofs.Common.{rules};

use crate::bounds::beyond_bounds;
use mig::{Network, Question, Refusal};
use search::{Count, Search};

// The search below, and how many questions the layer has taken.
#[derive(Drop)]
pub struct BoundLayer<S> {
    pub below: S,
    count: Count,
}

impl<S> BoundLayer<S> {
    // The layer over a search, before its first question.
    pub fn new(below: S) -> BoundLayer<S>
        ensures below_as_given { result.below ≡ below }
        ensures count_zero { result.count.number ≡ 0 }
    {
        BoundLayer {
            below,
            count: Count::new(),
        }
    }
}

impl<S: Search> Search for BoundLayer<S> {
    ghost reach = { λ s. S.Search.reach s.below };

    ghost need = { λ s. S.Search.need s.below };

    ghost count = { λ s. s.count.number };

    ghost reach_at_most_seven = { Prim.search rules };

    ghost count_stops = { Prim.search rules };

    fn reach(&self) -> u8 {
        self.below.reach()
    }

    fn need(&self) -> usize {
        self.below.need()
    }

    fn count(&self) -> u32 {
        self.count.number()
    }

    // Beyond the bounds the answer is "none", and the search below is left as it was; else it is asked.
    // By a rule of the project the place and the words are lent.
    fn ask(
        &mut self,
        question: &Question,
        gates: u8,
        place: &mut Network,
        words: &mut [u32],
    ) -> Result<bool, Refusal> {
        self.check(question, gates, words.len())?;
        self.count.raise();
        if beyond_bounds(question, gates)? {
            Ok(false)
        } else {
            self.below.ask(question, gates, place, words)
        }
    }
}
