// Whether a network of exactly so many gates meets a question, asked of the solver.
ghost use Rattle.std.specs.Prelude.{◌≡◌, ◌≤◌, length, None, IfOk};
ghost use Rattle.mig.specs.Questions.{Valid};
ghost use Rattle.mig.specs.Rules.{refused_by};
ghost use Rattle.clause_search.specs.Exact.{CanBeAsked, IsShapeOf, Poses, FoundExactly};
ghost use Rattle.symmetry_laws.specs.Symmetry.{numbered_exact_clauses};
ghost use Rattle.clause_words.specs.Stored.{Stores, Fits};

use crate::clause_count::ClauseCount;
use crate::model::bytes_of_values;
use assignment_reader::read_assignment;
use clause_words::ClauseWords;
use clauses::variable_count;
use exact_clauses::generate_exact;
use mig::{Network, Question, Refusal};
use sat::{Answer, Shape, literals_place, solve, values_place};

// How many learnt clauses there is to be room for.
const LEARNT: u32 = 10000;

// How many variables and clauses a question and exactly so many gates have.
fn shape_of(question: &Question, gates: u8) -> Result<Shape, Refusal>
    requires valid { Valid question.now }
    requires few { gates ≤ 7 }
    ensures not_refused { refused_by result ≡ None }
    ensures shape { IfOk result (IsShapeOf question.now gates) }
{
    let variables = variable_count(question, gates)?;
    let mut count = ClauseCount { clauses: 0 };
    generate_exact(question, gates, &mut count)?;
    Ok(Shape {
        variables,
        clauses: count.clauses,
        learnt: LEARNT,
    })
}

// Writes the clauses of a question and exactly so many gates into literals and a table of ends, and says how many they are.
fn fill(
    question: &Question,
    gates: u8,
    literals: &mut [u32],
    ends: &mut [u32],
) -> Result<usize, Refusal>
    requires valid { Valid question.now }
    requires few { gates ≤ 7 }
    requires fits { Fits (length literals.old) (length ends.old) (numbered_exact_clauses question.now gates) }
    ensures not_refused { refused_by result ≡ None }
    ensures as_many_words { length literals.new ≡ length literals.old }
    ensures as_many_ends { length ends.new ≡ length ends.old }
    ensures stored { IfOk result (λ k. Stores literals.new ends.new k (numbered_exact_clauses question.now gates)) }
{
    ends[0] = 0;
    let mut sink = ClauseWords {
        words: literals,
        ends,
        clauses: 0,
    };
    generate_exact(question, gates, &mut sink)?;
    Ok(sink.clauses)
}

// Writes the clauses of a question and exactly so many gates into the words.
fn write_clauses(
    question: &Question,
    gates: u8,
    words: &mut [u32],
    shape: &Shape,
) -> Result<(), Refusal>
    requires can_be_asked { CanBeAsked question.now gates (length words.old) }
    requires shape { IsShapeOf question.now gates shape.now }
    ensures not_refused { refused_by result ≡ None }
    ensures as_many_words { length words.new ≡ length words.old }
    ensures posed { Poses question.now gates shape.now words.new }
{
    let (table, literals) = words.split_at_mut(literals_place(shape));
    let (ends, _behind) = table.split_at_mut(values_place(shape));
    fill(question, gates, literals, ends)?;
    Ok(())
}

// A network of exactly so many gates that meets the question, none if no assignment satisfies the clauses.
pub(crate) fn exact_network(
    question: &Question,
    gates: u8,
    words: &mut [u32],
) -> Result<Option<Network>, Refusal>
    requires can_be_asked { CanBeAsked question.now gates (length words.old) }
    ensures not_refused { refused_by result ≡ None }
    ensures as_many_words { length words.new ≡ length words.old }
    ensures found_exactly { IfOk result (FoundExactly question.now gates) }
{
    let shape = shape_of(question, gates)?;
    write_clauses(question, gates, words, &shape)?;
    match solve(words, &shape) {
        Answer::Satisfiable => {
            let variables = shape.variables as usize;
            let bytes = bytes_of_values(words, values_place(&shape), variables);
            Ok(Some(read_assignment(question, gates, &bytes[..variables])?))
        }
        Answer::Unsatisfiable => Ok(None),
        Answer::Refused => Err(Refusal::TooFewWorkWords),
    }
}
