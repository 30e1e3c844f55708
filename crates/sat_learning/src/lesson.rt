// Learning from a false clause.

ghost use Rattle.std.specs.Prelude.{ℕ, ◌≤◌, ◌<◌, IfSome, length, slice_index};
ghost use Rattle.sat_laws.specs.Formulas.{WellFormed};
ghost use Rattle.sat_laws.specs.Steps.{Analyzed};

use crate::activities::{begin_lesson, bump_reasons};
use crate::analysis::analyze;
use crate::learnt_clause::learn;
use crate::marks::clear;
use crate::minimization::minimize;
use crate::restarts::backjump_place;
use sat_clauses::FULL;
use sat_trail::{DECISION_LEVEL, LEARNT, Places, note, noted};

// Learns from a false clause. Says how many clauses are held then, and up to which place the trail is kept, or none where
// nothing could be told.
pub fn study(
    words: &mut [u32],
    ends: &mut [u32],
    clauses: usize,
    values: &[u32],
    trail: &[u32],
    kinds: &[u32],
    marks: &mut [u32],
    notes: &mut [u32],
    places: &Places,
    top: usize,
    conflict: usize,
) -> (usize, Option<usize>)
    requires well_formed { WellFormed words.old ends.old clauses (length values.now) }
    requires few { length values.now ≤ 32768 }
    requires small { (v : ℕ) → slice_index values.now v ≤ 2 }
    requires on_trail { top ≤ length trail.now }
    requires with_kinds { top ≤ length kinds.now }
    requires held { conflict < clauses }
    ensures analyzed { Analyzed words.old ends.old clauses (length values.now) trail.now kinds.now top words.new ends.new result.0 }
    ensures on_trail { IfSome result.1 (λ to. to ≤ top) }
{
    clear(marks);
    begin_lesson(notes);
    if !analyze(
        words, ends, clauses, values, trail, marks, notes, places, top, conflict,
    ) {
        return (clauses, None);
    }
    minimize(
        words, ends, clauses, values, trail, kinds, marks, notes, places, top,
    );
    bump_reasons(words, ends, marks, notes, places);
    let more = learn(words, ends, clauses, values, marks);
    if more == clauses {
        note(notes, LEARNT, 0, FULL);
        note(notes, DECISION_LEVEL, 0, 0);
        let to = noted(notes, places.decision, 0) as usize;
        return (more, Some(to.min(top)));
    }
    let learnt = noted(notes, LEARNT, 0).saturating_add(1);
    note(notes, LEARNT, 0, learnt);
    let start = ends[more - 1] as usize;
    let end = ends[more] as usize;
    let to = backjump_place(words, notes, places, more - 1, start, end, top);
    (more, Some(to))
}
