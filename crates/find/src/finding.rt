// A network of at most some number of gates that meets a question.
ghost use Rattle.std.specs.Prelude.{◌≡◌, ◌≤◌, [], IfOk};
ghost use Rattle.mig.specs.Rules.{refused_by};
ghost use Rattle.enumeration_laws.specs.Placed.{FoundOr, FoundWithin};
ghost use Rattle.enumeration_laws.specs.Prefixes.{NoneExtends, NoneWithoutGates};
ghost use Rattle.find.specs.Refused.{find_refusal};

use crate::columns::start_columns;
use crate::prefix::{Prefix, without_gates};
use crate::valid_question::ValidQuestion;
use mig::{Network, Question, Refusal};

// A network without gates that meets the question, if there is one.
fn find_without_gates(asked: ValidQuestion) -> Option<Network>
    ensures { FoundOr (NoneWithoutGates asked.question) asked.question 0 result }
{
    let columns = start_columns();
    let codes = 2 * (usize::from(asked.question.inputs) + 1);
    let code = asked.position_of_table(&columns[..codes])?;
    Some(without_gates(code as u8))
}

// A network of at most `gates` gates that meets the question, where a canonical one has at least one.
fn find_with_gates(asked: ValidQuestion, gates: u8) -> Option<Network>
    requires { gates ≤ 4 }
    ensures { FoundOr (NoneExtends asked.question [] gates) asked.question gates result }
{
    Prefix::empty(asked).extend(gates)
}

// A network of at most `gates` gates that meets the question, if there is one.
fn find_within(asked: ValidQuestion, gates: u8) -> Option<Network>
    requires { gates ≤ 4 }
    ensures { FoundWithin asked.question gates result }
{
    find_without_gates(asked).or_else(|| find_with_gates(asked, gates))
}

// A network of at most `gates` gates that meets the question, exactly if there is one. Refused are questions out of
// bounds and more than four gates.
pub fn find_network(question: &Question, gates: u8) -> Result<Option<Network>, Refusal>
    ensures refused_by_the_rule { refused_by result ≡ find_refusal question.now gates }
    ensures found_exactly_when_a_network_exists { IfOk result (FoundWithin question.now gates) }
{
    let asked = ValidQuestion::try_from(*question)?;
    if gates > 4 {
        return Err(Refusal::GatesAboveReach);
    }
    Ok(find_within(asked, gates))
}
