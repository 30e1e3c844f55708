// Asking a search with more and more gates, up to the first number that is enough.
#![tactic(auto)]

ghost use Rattle.std.specs.Prelude.{◌≡◌, ◌-◌, length, MatchResult};
ghost use Rattle.mig.specs.Rules.{refused_by};
ghost use Rattle.search.specs.Meaning.{raised, ask_refusal};
ghost use Rattle.least_gates.specs.Asked.{AskedBelow};

use mig::{Network, Question, Refusal};
use search::Search;

// What asking has shown, and how many numbers were asked. `least` is the first number that is enough; if none is, its
// error is the lower number that is now known.
#[derive(Clone, Copy, Debug, PartialEq, Eq)]
pub struct Asked {
    pub least: Result<u8, u8>,
    pub times: u8,
}

// Asks with `from` gates, one more, and so on below `end`, and stops at the first "found".
// By a rule of the project the place and the words are lent, as the search takes them.
pub fn least_gates<S: Search>(
    search: &mut S,
    question: &Question,
    from: u8,
    end: u8,
    place: &mut Network,
    words: &mut [u32],
) -> Result<Asked, Refusal>
    ensures refused_by_the_rule { refused_by result ≡ ask_refusal question.now (end - 1) (S.reach search.old) (S.need search.old) (length words.old) }
    ensures reach_and_need_stay { (S.reach search.new ≡ S.reach search.old) × (S.need search.new ≡ S.need search.old) }
    ensures asked_up_to_the_first_found { MatchResult result (λ r. (S.count search.new ≡ raised (S.count search.old) r.times) × AskedBelow question.now from end place.old place.new r)
        (λ _. (search.new ≡ search.old) × (place.new ≡ place.old) × (words.new ≡ words.old)) }
{
    search.check(question, end.saturating_sub(1), words.len())?;
    for gates in from..end {
        if search.ask(question, gates, place, words)? {
            return Ok(Asked {
                least: Ok(gates),
                times: gates - from + 1,
            });
        }
    }
    Ok(Asked {
        least: Err(from.max(end)),
        times: end.saturating_sub(from),
    })
}
