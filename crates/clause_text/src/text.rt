// The text of the clauses of a question and a number of gates.
ghost use Rattle.std.specs.Prelude.{◌≡◌, length, IfOk};
ghost use Rattle.mig.specs.Rules.{unless_refused, refused_by};
ghost use Rattle.cnf.specs.Numbers.{question_variables, question_clauses, NumberedInOrder, SatisfiableExactlyWhenMet, LiteralsNameVariables};
ghost use Rattle.cnf.specs.Text.{clauses_text, question_text};
ghost use Rattle.cnf.specs.Rules.{clauses_refusal, text_refusal, text_answer, buffer_after};
ghost use Rattle.clause_text.specs.Writing.{Writes};

use crate::head::{head_length, write_head};
use crate::length::TextLength;
use crate::writer::TextWriter;
use clauses::{generate, variable_count};
use mig::{Question, Refusal};

// How many variables and clauses there are, and how many bytes their text has.
#[derive(Clone, Copy)]
struct TextSize {
    variables: u32,
    clauses: usize,
    bytes: usize,
}

// How large the text is.
fn text_size(question: &Question, gates: u8) -> Result<TextSize, Refusal>
    ensures refused_by_the_rule { refused_by result ≡ clauses_refusal question.now gates }
    ensures variables { IfOk result (λ s. s.variables ≡ length (question_variables question.now gates)) }
    ensures clauses { IfOk result (λ s. s.clauses ≡ length (question_clauses question.now gates)) }
    ensures bytes { IfOk result (λ s. s.bytes ≡ length (question_text question.now gates)) }
{
    let variables = variable_count(question, gates)?;
    let mut length = TextLength {
        clauses: 0,
        bytes: 0,
    };
    generate(question, gates, &mut length)?;
    let bytes = head_length(variables, length.clauses) + length.bytes;
    Ok(TextSize {
        variables,
        clauses: length.clauses,
        bytes,
    })
}

// How many bytes the text of the clauses of a question and a number of gates has.
pub fn clause_text_length(question: &Question, gates: u8) -> Result<usize, Refusal>
    ensures { result ≡ unless_refused (clauses_refusal question.now gates) (length (question_text question.now gates)) }
{
    let size = text_size(question, gates)?;
    Ok(size.bytes)
}

// Writes the clauses behind a place, if there is room, and gives the place behind them.
fn write_clauses(
    question: &Question,
    gates: u8,
    buffer: &mut [u8],
    place: usize,
) -> Result<usize, Refusal>
    ensures refused_by_the_rule { refused_by result ≡ clauses_refusal question.now gates }
    ensures written { IfOk result (λ behind. Writes (clauses_text (question_clauses question.now gates)) buffer.old place buffer.new behind) }
{
    let mut writer = TextWriter { buffer, place };
    generate(question, gates, &mut writer)?;
    Ok(writer.place)
}

// Writes the text of the clauses of a question and a number of gates at the beginning of the buffer. It answers how many
// bytes that are.
#[tactic(auto, using(cnf_laws::proofs::Numbering::numbered_in_order))]
pub fn clause_text(question: &Question, gates: u8, buffer: &mut [u8]) -> Result<usize, Refusal>
    ensures answer { result ≡ text_answer question.now gates (length buffer.old) }
    ensures bytes_are_the_text_and_those_behind_stay { buffer.new ≡ buffer_after (text_refusal question.now gates (length buffer.old)) (question_text question.now gates) buffer.old }
    ensures satisfiable_exactly_when_met { IfOk result (λ _. SatisfiableExactlyWhenMet question.now gates) }
    ensures variables_numbered_in_order { NumberedInOrder question.now gates }
    ensures literals_name_variables { IfOk result (λ _. LiteralsNameVariables question.now gates) }
{
    let size = text_size(question, gates)?;
    if buffer.len() < size.bytes {
        return Err(Refusal::BufferTooShort);
    }
    let place = write_head(size.variables, size.clauses, buffer, 0);
    write_clauses(question, gates, buffer, place)
}
