// All clauses of a question and exactly so many gates.
ghost use Rattle.std.specs.Prelude.{◌≡◌, MatchResult};
ghost use Rattle.mig.specs.Rules.{unless_refused};
ghost use Rattle.cnf.specs.Rules.{clauses_refusal};
ghost use Rattle.symmetry_laws.specs.Symmetry.{numbered_exact_clauses};

use crate::fan_ins::{buffers_copy_gates, complements_once, fan_ins_rise};
use crate::gates::{first_row_zero, gates_named, neighbours_ordered, output_last};
use crate::inputs::inputs_ordered;
use clauses::{Numbering, generate};
use cnf::ClauseSink;
use mig::{Question, Refusal};

// Gives the clauses of a question and exactly so many gates to a sink: those of the question, then the symmetry clauses.
pub fn generate_exact<S: ClauseSink>(
    question: &Question,
    gates: u8,
    sink: &mut S,
) -> Result<(), Refusal>
    ensures answer { result ≡ unless_refused (clauses_refusal question.now gates) tt }
    ensures takes_the_clauses_in_order { MatchResult result
        (λ _. S.took sink.old (numbered_exact_clauses question.now gates) sink.new)
        (λ _. sink.new ≡ sink.old) }
{
    let numbering = Numbering::new(question, gates)?;
    generate(question, gates, sink)?;
    complements_once(sink, &numbering);
    fan_ins_rise(sink, &numbering);
    buffers_copy_gates(sink, &numbering);
    output_last(sink, &numbering);
    gates_named(sink, &numbering);
    first_row_zero(sink, &numbering);
    neighbours_ordered(sink, &numbering);
    inputs_ordered(sink, &numbering, question.table);
    Ok(())
}
