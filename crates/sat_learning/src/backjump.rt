// Going on after a clause was learnt.

ghost use Rattle.std.specs.Prelude.{◌≤◌, ◌<◌, length};
ghost use Rattle.sat_laws.specs.Formulas.{WellFormed};
ghost use Rattle.sat_laws.specs.Trails.{Consistent};
ghost use Rattle.sat_laws.specs.Steps.{Backjumped, Reduced};

use sat_clauses::{compact, length_kept};
use sat_propagation::{infer, watch_all};
use sat_trail::{DECISION_LEVEL, LEARNT, Places, SPAN, cut_back, noted};

// Cuts the trail back to the place `to`, and puts on what the last clause gives. Says how many literals the trail has then.
pub fn recover(
    words: &[u32],
    ends: &[u32],
    clauses: usize,
    values: &mut [u32],
    trail: &mut [u32],
    kinds: &mut [u32],
    notes: &mut [u32],
    places: &Places,
    top: usize,
    to: usize,
) -> usize
    requires well_formed { WellFormed words.now ends.now clauses (length values.old) }
    requires consistent { Consistent values.old trail.old kinds.old top }
    requires some { 0 < clauses }
    requires on_trail { to ≤ top }
    ensures backjumped { Backjumped words.now ends.now clauses trail.old kinds.old top values.new trail.new kinds.new result }
{
    cut_back(values, trail, kinds, notes, places, top, to);
    let (top, _) = infer(
        words,
        ends,
        clauses,
        values,
        trail,
        kinds,
        notes,
        places,
        to,
        clauses - 1,
    );
    top
}

// Where enough was learnt, and no decision stands, drops learnt clauses. Says how many clauses are held then.
pub fn reduce(
    words: &mut [u32],
    ends: &mut [u32],
    given: usize,
    clauses: usize,
    values: &[u32],
    notes: &mut [u32],
    places: &Places,
) -> usize
    requires well_formed { WellFormed words.old ends.old clauses (length values.now) }
    requires given_first { given ≤ clauses }
    ensures reduced { Reduced words.old ends.old given clauses (length values.now) words.new ends.new result }
{
    if noted(notes, DECISION_LEVEL, 0) > 0 || noted(notes, LEARNT, 0) < noted(notes, SPAN, 0) {
        return clauses;
    }
    let most = length_kept(ends, notes, given, clauses);
    let left = compact(words, ends, most, given, clauses, values.len());
    watch_all(words, ends, left, values, notes, places);
    left
}
