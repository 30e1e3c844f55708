// All clauses of a question and a number of gates, and how many variables they have.
ghost use Rattle.std.specs.Prelude.{◌≡◌, length, MatchResult};
ghost use Rattle.mig.specs.Rules.{unless_refused};
ghost use Rattle.cnf.specs.Numbers.{question_variables, question_clauses};
ghost use Rattle.cnf.specs.Rules.{clauses_refusal};

use crate::choices::{fan_ins_chosen, output_chosen};
use crate::fan_outs::fan_outs_limited;
use crate::levels::levels_limited;
use crate::numbering::Numbering;
use crate::output::output_values;
use crate::values::{fan_in_values, gate_values};
use cnf::ClauseSink;
use mig::{Question, Refusal};

// Gives the clauses of a question and a number of gates to a sink, in their order.
pub fn generate<S: ClauseSink>(question: &Question, gates: u8, sink: &mut S) -> Result<(), Refusal>
    ensures answer { result ≡ unless_refused (clauses_refusal question.now gates) tt }
    ensures takes_the_clauses_in_order { MatchResult result
        (λ _. S.took sink.old (question_clauses question.now gates) sink.new)
        (λ _. sink.new ≡ sink.old) }
{
    let numbering = Numbering::new(question, gates)?;
    fan_ins_chosen(sink, &numbering);
    fan_in_values(sink, &numbering);
    gate_values(sink, &numbering);
    output_chosen(sink, &numbering);
    output_values(sink, &numbering, question.table);
    levels_limited(sink, &numbering);
    fan_outs_limited(sink, &numbering);
    Ok(())
}

// How many variables the clauses of a question and a number of gates have.
pub fn variable_count(question: &Question, gates: u8) -> Result<u32, Refusal>
    ensures { result ≡ unless_refused (clauses_refusal question.now gates) (length (question_variables question.now gates)) }
{
    let numbering = Numbering::new(question, gates)?;
    let behind = numbering.first_counter(numbering.inputs + 1 + numbering.gates);
    Ok(behind - 1)
}
