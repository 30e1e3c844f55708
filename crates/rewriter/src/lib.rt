// The static library of a rewriter in C; c/kegbirun.h declares its functions.
#![tactic(auto)]

ghost use Rattle.std.specs.Prelude.{◌≡◌, ◌↔◌, length};
ghost use Rattle.mig.specs.Questions.{Valid};
ghost use Rattle.cnf.specs.Numbers.{NumberedInOrder, SatisfiableExactlyWhenMet};
ghost use Rattle.cnf.specs.Text.{question_text};
ghost use Rattle.cnf.specs.Rules.{text_refusal, text_answer, buffer_after};
ghost use Rattle.rewriter_calls.specs.Calls.{asked, answer_number, place_after, bytes_examined, BytesMeet};

use rewriter_calls::{examine_bytes, write_clause_text};

// Whether a network as bytes meets a question.
#[unsafe(no_mangle)]
pub extern "C" fn kegbirun_examine(
    inputs: u8,
    table: u32,
    depth: u8,
    fan_out: u8,
    network: &[u8],
    level: &mut u8,
    greatest_fan_out: &mut u8,
) -> u32
    ensures number { result ≡ answer_number (bytes_examined (asked inputs table depth fan_out) network.now) }
    ensures level { level.new ≡ place_after (λ p. p.0) (bytes_examined (asked inputs table depth fan_out) network.now) level.old }
    ensures greatest_fan_out { greatest_fan_out.new ≡ place_after (λ p. p.1) (bytes_examined (asked inputs table depth fan_out) network.now) greatest_fan_out.old }
    ensures zero_exactly_when_met { (result ≡ 0) ↔ (Valid (asked inputs table depth fan_out) × BytesMeet (asked inputs table depth fan_out) network.now) }
{
    examine_bytes(
        inputs,
        table,
        depth,
        fan_out,
        network,
        level,
        greatest_fan_out,
    )
}

// The clause text of a question and a number of gates, written into a buffer.
#[unsafe(no_mangle)]
pub extern "C" fn kegbirun_clause_text(
    inputs: u8,
    table: u32,
    depth: u8,
    fan_out: u8,
    gates: u8,
    buffer: &mut [u8],
    text_length: &mut usize,
) -> u32
    ensures number { result ≡ answer_number (text_answer (asked inputs table depth fan_out) gates (length buffer.old)) }
    ensures text_length { text_length.new ≡ place_after (λ n. n) (text_answer (asked inputs table depth fan_out) gates (length buffer.old)) text_length.old }
    ensures bytes_are_the_text_and_those_behind_stay { buffer.new ≡ buffer_after (text_refusal (asked inputs table depth fan_out) gates (length buffer.old)) (question_text (asked inputs table depth fan_out) gates) buffer.old }
    ensures satisfiable_exactly_when_met { result ≡ 0 → SatisfiableExactlyWhenMet (asked inputs table depth fan_out) gates }
    ensures variables_numbered_in_order { NumberedInOrder (asked inputs table depth fan_out) gates }
{
    write_clause_text(inputs, table, depth, fan_out, gates, buffer, text_length)
}
