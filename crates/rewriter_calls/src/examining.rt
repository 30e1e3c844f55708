// A network as bytes, examined.
ghost use Rattle.std.specs.Prelude.{◌≡◌, ◌↔◌};
ghost use Rattle.mig.specs.Questions.{Valid};
ghost use Rattle.rewriter_calls.specs.Calls.{asked, answer_number, place_after, bytes_examined, BytesMeet};

use checks::check_question;
use examine::examine;
use mig::{Limits, Question, Refusal};
use records::read_network;

// The answer of `examine` to a network as bytes.
fn bytes_examined(question: &Question, network: &[u8]) -> Result<(u8, u8), Refusal>
    ensures { result ≡ bytes_examined question.now network.now }
{
    check_question(question)?;
    let Some(network) = read_network(network) else {
        return Err(Refusal::MalformedNetwork);
    };
    examine(question, &network)
}

// Whether a network as bytes meets a question: 0 if it does, and then its level and the greatest
// fan-out of a gate are written; else the number of the refusal, and nothing is written.
pub fn examine_bytes(
    inputs: u8,
    table: u32,
    depth: u8,
    fan_out: u8,
    network: &[u8],
    level: &mut u8,
    greatest_fan_out: &mut u8,
) -> u32
    ensures number { result ≡ answer_number (bytes_examined (asked inputs table depth fan_out) network.now) }
    ensures level { level.new ≡ place_after (λ p. p.0) (bytes_examined (asked inputs table depth fan_out) network.now) level.old }
    ensures greatest_fan_out { greatest_fan_out.new ≡ place_after (λ p. p.1) (bytes_examined (asked inputs table depth fan_out) network.now) greatest_fan_out.old }
    ensures zero_exactly_when_met { (result ≡ 0) ↔ (Valid (asked inputs table depth fan_out) × BytesMeet (asked inputs table depth fan_out) network.now) }
{
    let question = Question {
        inputs,
        table,
        limits: Limits { depth, fan_out },
    };
    match bytes_examined(&question, network) {
        Ok((found_level, found_fan_out)) => {
            *level = found_level;
            *greatest_fan_out = found_fan_out;
            0
        }
        Err(refusal) => u32::from(refusal.number()),
    }
}
