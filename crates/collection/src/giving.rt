// Kept networks given out.
ghost use Rattle.std.specs.Prelude.{is_ok, IsTrue, IfSome};
ghost use Rattle.mig.specs.Questions.{Valid};
ghost use Rattle.filing.specs.Filing.{key_of, Keepable};
ghost use Rattle.collection.specs.State.{GivenOut};

use filing::carry_out;
use mig::{Network, Question, Refusal};

// Gives a kept network out to a question, into the place; without a network the place stays. The refusals of carrying do not occur.
pub(crate) fn give_out(
    question: &Question,
    kept: Option<Network>,
    place: &mut Network,
) -> Result<(), Refusal>
    requires within_bounds { Valid question.now }
    requires keepable { IfSome kept (Keepable (key_of question.now)) }
    ensures not_refused { IsTrue (is_ok result) }
    ensures given_out { GivenOut question.now kept place.old place.new }
{
    if let Some(network) = kept {
        *place = carry_out(question, &network)?;
    }
    Ok(())
}
