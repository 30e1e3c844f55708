// What a search is: any type whose `ask` means what the clauses say.
ghost use Rattle.std.specs.Prelude.{◌≡◌, ℕ, ◌≤◌, length, MatchResult, OnOk};
ghost use Rattle.mig.specs.Questions.{Valid};
ghost use Rattle.mig.specs.Rules.{unless_refused, refused_by};
ghost use Rattle.search.specs.Meaning.{count_stop, raised, ask_refusal, Outcome};

use crate::admission::check_ask;
use mig::{Network, Question, Refusal};

// A search answers whether a question can be met with at most some number of gates. Left open are the found network and
// what the work words hold after a search.
pub trait Search {
    ghost reach: { Self → ℕ };

    ghost need: { Self → ℕ };

    ghost count: { Self → ℕ };

    // The greatest number of gates that the search can be asked for.
    fn reach(&self) -> u8
        ensures { result ≡ reach self.now };

    // How many work words the search has to be lent.
    fn need(&self) -> usize
        ensures { result ≡ need self.now };

    // How many questions the search has taken.
    fn count(&self) -> u32
        ensures { result ≡ count self.now };

    // The refusal of a question and a number of work words, if there is one.
    fn check(&self, question: &Question, gates: u8, words: usize) -> Result<(), Refusal>
        ensures answer { result ≡
            unless_refused (ask_refusal question.now gates (reach self.now) (need self.now) words) tt }
        ensures accepted { OnOk result (Valid question.now × (gates ≤ reach self.now) × (need self.now ≤ words)) }
    {
        check_ask(question, gates, self.reach(), self.need(), words)
    }

    // Whether a network of at most `gates` gates meets the question; if so, such a network is in the place.
    // By a rule of the project the place and the words are lent, so the network is not in the answer.
    fn ask(
        &mut self,
        question: &Question,
        gates: u8,
        place: &mut Network,
        words: &mut [u32],
    ) -> Result<bool, Refusal>
        ensures refused_by_the_rule { refused_by result ≡ ask_refusal question.now gates (reach self.old) (need self.old) (length words.old) }
        ensures reach_and_need_stay { (reach self.new ≡ reach self.old) × (need self.new ≡ need self.old) }
        ensures found_exactly_when_a_network_exists { MatchResult result (λ found. (count self.new ≡ raised (count self.old) 1) × Outcome question.now gates place.old place.new found)
            (λ _. (self.new ≡ self.old) × (place.new ≡ place.old) × (words.new ≡ words.old)) };

    ghost reach_at_most_seven: { (s : Self) → reach s ≤ 7 };

    ghost count_stops: { (s : Self) → count s ≤ count_stop };
}
