// The bounds that the support of a table sets.
ghost use Rattle.std.specs.Prelude.{◌≡◌, true};
ghost use Rattle.mig.specs.Rules.{unless_refused, question_refusal};
ghost use Rattle.search.specs.Meaning.{NoneWithin};
ghost use Rattle.bound_layer.specs.Bounds.{beyond_bounds};

use checks::check_question;
use mig::{Question, Refusal};
use support::support;

// Whether the table depends on more inputs than `gates` gates or the depth limit allow.
#[tactic(auto, using(crate::proofs::NoneBeyond::none_beyond))]
pub fn beyond_bounds(question: &Question, gates: u8) -> Result<bool, Refusal>
    ensures answer { result ≡ unless_refused (question_refusal question.now) (beyond_bounds question.now gates) }
    ensures no_network_beyond_a_bound { beyond_bounds question.now gates ≡ true → NoneWithin question.now gates }
{
    check_question(question)?;
    let inputs = support(question.inputs, question.table)?;
    let most_by_gates = 2 * u32::from(gates) + 1;
    let most_by_level = 3u32.pow(u32::from(question.limits.depth));
    Ok(inputs > most_by_gates || inputs > most_by_level)
}
