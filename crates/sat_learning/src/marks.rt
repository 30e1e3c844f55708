// Marks on the variables of the clause that is being learnt.

ghost use Rattle.std.specs.Prelude.{◌≡◌, ℕ, true, slice_index};
ghost use Rattle.sat_laws.specs.Steps.{Marked};

use crate::activities::bump;
use sat_clauses::literal;
use sat_trail::{DECISION_LEVEL, OPEN, Places, note, noted, value};

// No literal has this number.
pub(crate) const NO_LITERAL: u32 = 4294967295;

// The mark of a variable: 0 where it has none.
pub(crate) fn mark_of(marks: &[u32], variable: usize) -> u32
    ensures mark { result ≡ slice_index marks.now variable }
{
    if variable < marks.len() {
        marks[variable]
    } else {
        0
    }
}

// Takes all marks off.
pub(crate) fn clear(marks: &mut [u32]) {
    for mark in marks.iter_mut() {
        *mark = 0;
    }
}

// Notes that a variable is marked.
fn note_mark(notes: &mut [u32], places: &Places, variable: usize, variables: usize) {
    bump(notes, places, variable, variables);
    if noted(notes, places.level, variable) == noted(notes, DECISION_LEVEL, 0) {
        let open = noted(notes, OPEN, 0).saturating_add(1);
        note(notes, OPEN, 0, open);
    }
}

// Marks the variables of the literals from `start` up to `end` but for `but`, and says whether those literals are false.
pub(crate) fn mark(
    words: &[u32],
    values: &[u32],
    marks: &mut [u32],
    notes: &mut [u32],
    places: &Places,
    start: usize,
    end: usize,
    but: u32,
) -> bool
    ensures marked { result ≡ true → Marked words.now values.now start end but marks.old marks.new }
{
    let variables = marks.len();
    for place in start..end {
        let l = literal(words, place);
        if l == but {
            continue;
        }
        let v = (l / 2) as usize;
        if value(values, l) != 2 - l % 2 || v >= marks.len() {
            return false;
        }
        if marks[v] == 0 {
            note_mark(notes, places, v, variables);
        }
        marks[v] = 1;
    }
    true
}
