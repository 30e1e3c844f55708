// The call.

ghost use Rattle.std.specs.Prelude.{◌≡◌, ℕ, slice_index};
ghost use Rattle.sat.specs.Shapes.{Answered};

use crate::search::search;
use crate::shape::{Shape, literals_place, notes_length, places, table_length};
use sat_clauses::well_formed;

// The answer of the solver.
#[derive(Clone, Copy)]
pub enum Answer {
    Satisfiable, // there is a model, which the values tell
    Unsatisfiable, // there is no model
    Refused, // the words hold no such clauses, or there is too little room
}

// Writes 0 into all words.
fn clear(words: &mut [u32])
    ensures cleared { (i : ℕ) → slice_index words.new i ≡ 0 }
{
    for word in words.iter_mut() {
        *word = 0;
    }
}

// Whether the clauses that the words hold have a model.
pub fn solve(words: &mut [u32], shape: &Shape) -> Answer
    ensures answered { Answered shape.now words.old words.new result }
{
    if shape.variables > 32768 || shape.clauses > 32767 || shape.learnt > 32767 - shape.clauses {
        return Answer::Refused;
    }
    if literals_place(shape) > words.len() {
        return Answer::Refused;
    }
    let variables = shape.variables as usize;
    let given = shape.clauses as usize;
    let (ends, rest) = words.split_at_mut(table_length(shape));
    let (values, rest) = rest.split_at_mut(variables);
    let (trail, rest) = rest.split_at_mut(variables);
    let (kinds, rest) = rest.split_at_mut(variables);
    let (marks, rest) = rest.split_at_mut(variables);
    let (notes, literals) = rest.split_at_mut(notes_length(shape));
    if !well_formed(literals, ends, given, variables) {
        return Answer::Refused;
    }
    clear(values);
    clear(notes);
    if search(
        literals,
        ends,
        given,
        values,
        trail,
        kinds,
        marks,
        notes,
        &places(shape),
    ) {
        Answer::Satisfiable
    } else {
        Answer::Unsatisfiable
    }
}
