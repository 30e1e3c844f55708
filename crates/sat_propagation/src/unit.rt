// What one clause gives.

ghost use Rattle.std.specs.Prelude.{◌<◌, length};
ghost use Rattle.sat_laws.specs.Formulas.{WellFormed};
ghost use Rattle.sat_laws.specs.Trails.{Consistent, Conflicts};
ghost use Rattle.sat_laws.specs.Steps.{Grown};

use crate::clause_state::{ClauseState, look};
use sat_clauses::literal;
use sat_trail::{DECISION_LEVEL, Places, note, noted, push};

// Puts the literal that a clause forces on the trail. Says how many literals the trail has then, and the clause if it is false,
// or else `clauses`.
pub fn infer(
    words: &[u32],
    ends: &[u32],
    clauses: usize,
    values: &mut [u32],
    trail: &mut [u32],
    kinds: &mut [u32],
    notes: &mut [u32],
    places: &Places,
    top: usize,
    clause: usize,
) -> (usize, usize)
    requires well_formed { WellFormed words.now ends.now clauses (length values.old) }
    requires consistent { Consistent values.old trail.old kinds.old top }
    requires held { clause < clauses }
    ensures grown { Grown words.now ends.now clauses values.old trail.old kinds.old top values.new trail.new kinds.new result.0 }
    ensures conflict { Conflicts words.now ends.now clauses values.new result.1 }
{
    let start = ends[clause] as usize;
    let end = ends[clause + 1] as usize;
    match look(words, values, start, end) {
        ClauseState::Falsified => (top, clause),
        ClauseState::Open(_) => (top, clauses),
        ClauseState::Satisfied => (top, clauses),
        ClauseState::Forcing(place) => {
            let l = literal(words, place);
            push(values, trail, kinds, top, l, 0);
            let level = noted(notes, DECISION_LEVEL, 0);
            let v = (l / 2) as usize;
            note(notes, places.level, v, level);
            if clause < 4294967295 {
                note(notes, places.reason, v, clause as u32 + 1);
            }
            (top + 1, clauses)
        }
    }
}
