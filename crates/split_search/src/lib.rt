// The split search of any two searches: few gates go to the first, more to the second.
#![tactic(auto)]

ghost use Rattle.std.specs.Prelude.{◌≡◌, max, leb};
ghost use Rattle.std.proofs.Common.{rules};

use mig::{Network, Question, Refusal};
use search::{Count, Search};

// Two searches, held by value, and the count of the questions taken.
#[derive(Drop)]
pub struct Split<A, B> {
    pub first: A,
    pub second: B,
    count: Count,
}

impl<A, B> Split<A, B> {
    // The split search of two searches, which has taken no question yet.
    pub fn new(first: A, second: B) -> Split<A, B>
        ensures holds_both { (result.first ≡ first) × (result.second ≡ second) }
        ensures no_question_taken { result.count.number ≡ 0 }
    {
        Split {
            first,
            second,
            count: Count::new(),
        }
    }
}

impl<A: Search, B: Search> Split<A, B> {
    // Whether a question about so many gates goes to the first search.
    pub fn goes_to_first(&self, gates: u8) -> bool
        ensures { result ≡ leb gates (A.Search.reach self.now.first) }
    {
        gates <= self.first.reach()
    }
}

impl<A: Search, B: Search> Search for Split<A, B> {
    ghost reach = { λ s. max (A.Search.reach s.first) (B.Search.reach s.second) };

    ghost need = { λ s. max (A.Search.need s.first) (B.Search.need s.second) };

    ghost count = { λ s. s.count.number };

    ghost reach_at_most_seven = { Prim.search rules };

    ghost count_stops = { Prim.search rules };

    fn reach(&self) -> u8 {
        self.first.reach().max(self.second.reach())
    }

    fn need(&self) -> usize {
        self.first.need().max(self.second.need())
    }

    fn count(&self) -> u32 {
        self.count.number()
    }

    // By a rule of the project the place and the words are lent.
    fn ask(
        &mut self,
        question: &Question,
        gates: u8,
        place: &mut Network,
        words: &mut [u32],
    ) -> Result<bool, Refusal> {
        self.check(question, gates, words.len())?;
        self.count.raise();
        if self.goes_to_first(gates) {
            self.first.ask(question, gates, place, words)
        } else {
            self.second.ask(question, gates, place, words)
        }
    }
}
