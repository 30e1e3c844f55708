// Examining a network: whether it meets a question, its level and its greatest fan-out.
#![tactic(auto)]

ghost use Rattle.std.specs.Prelude.{◌≡◌, ◌≤◌, is_ok, IfOk, Decides};
ghost use Rattle.mig.specs.Networks.{net_of};
ghost use Rattle.mig.specs.Questions.{Valid, Meets, IsGreatestFanOut};
ghost use Rattle.mig.specs.Questions.{level as level_of};
ghost use Rattle.mig.specs.Rules.{examined};

use checks::{check_question, table_count};
use fan_outs::greatest_fan_out;
use mig::{Network, Question, Refusal};
use outputs::{column, level};

// The level and the greatest fan-out of a gate, of a network that meets the question.
pub fn examine(question: &Question, network: &Network) -> Result<(u8, u8), Refusal>
    ensures answer { result ≡ examined question.now network.now }
    ensures accepted_exactly_when_met { Decides (is_ok result) (Valid question.now × (network.now.count ≤ 7) × Meets question.now (net_of network.now)) }
    ensures level_and_greatest_fan_out { IfOk result (λ p. (p.0 ≡ level_of question.now.inputs (net_of network.now)) × IsGreatestFanOut question.now.inputs (net_of network.now) p.1) }
{
    check_question(question)?;
    let computed = column(question.inputs, network)?;
    let tables = table_count(question.inputs)?;
    if computed.rows as u32 % tables != question.table {
        return Err(Refusal::WrongTable);
    }
    let depth = level(question.inputs, network)?;
    if depth > question.limits.depth {
        return Err(Refusal::LevelAboveLimit);
    }
    let fan_out = greatest_fan_out(question.inputs, network)?;
    if fan_out > question.limits.fan_out {
        return Err(Refusal::FanOutAboveLimit);
    }
    Ok((depth, fan_out))
}
