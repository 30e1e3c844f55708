// The refusals of a search.
ghost use Rattle.std.specs.Prelude.{◌≡◌, ◌≤◌, OnOk};
ghost use Rattle.mig.specs.Questions.{Valid};
ghost use Rattle.mig.specs.Rules.{unless_refused};
ghost use Rattle.search.specs.Meaning.{ask_refusal};

use checks::check_question;
use mig::{Question, Refusal};

// The refusal of a question to a search with a reach and a need, if there is one.
pub fn check_ask(
    question: &Question,
    gates: u8,
    reach: u8,
    need: usize,
    words: usize,
) -> Result<(), Refusal>
    ensures answer { result ≡ unless_refused (ask_refusal question.now gates reach need words) tt }
    ensures accepted { OnOk result (Valid question.now × (gates ≤ reach) × (need ≤ words)) }
{
    check_question(question)?;
    if gates > reach {
        return Err(Refusal::GatesAboveReach);
    }
    if words < need {
        return Err(Refusal::TooFewWorkWords);
    }
    Ok(())
}
