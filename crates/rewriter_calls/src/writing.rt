// The clause text of a question of numbers.
ghost use Rattle.std.specs.Prelude.{◌≡◌, length};
ghost use Rattle.cnf.specs.Numbers.{NumberedInOrder, SatisfiableExactlyWhenMet};
ghost use Rattle.cnf.specs.Text.{question_text};
ghost use Rattle.cnf.specs.Rules.{text_refusal, text_answer, buffer_after};
ghost use Rattle.rewriter_calls.specs.Calls.{asked, answer_number, place_after};

use clause_text::clause_text;
use mig::{Limits, Question};

// Writes the text of the clauses of a question and a number of gates at the beginning of the buffer: 0 if it is written, and
// then its length is written too; else the number of the refusal, and nothing is written.
pub fn write_clause_text(
    inputs: u8,
    table: u32,
    depth: u8,
    fan_out: u8,
    gates: u8,
    buffer: &mut [u8],
    text_length: &mut usize,
) -> u32
    ensures number { result ≡ answer_number (text_answer (asked inputs table depth fan_out) gates (length buffer.old)) }
    ensures text_length { text_length.new ≡ place_after (λ n. n) (text_answer (asked inputs table depth fan_out) gates (length buffer.old)) text_length.old }
    ensures bytes_are_the_text_and_those_behind_stay { buffer.new ≡ buffer_after (text_refusal (asked inputs table depth fan_out) gates (length buffer.old)) (question_text (asked inputs table depth fan_out) gates) buffer.old }
    ensures satisfiable_exactly_when_met { result ≡ 0 → SatisfiableExactlyWhenMet (asked inputs table depth fan_out) gates }
    ensures variables_numbered_in_order { NumberedInOrder (asked inputs table depth fan_out) gates }
{
    let question = Question {
        inputs,
        table,
        limits: Limits { depth, fan_out },
    };
    match clause_text(&question, gates, buffer) {
        Ok(written) => {
            *text_length = written;
            0
        }
        Err(refusal) => u32::from(refusal.number()),
    }
}
