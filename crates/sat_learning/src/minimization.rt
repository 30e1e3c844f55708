// Minimization: the trail is gone through from its first literal on, and a variable of the clause to be learnt is left out where its
// value follows from those of the variables kept.

ghost use Rattle.std.specs.Prelude.{◌≡◌, ◌≢◌, ℕ, ◌/◌, ◌≤◌, ◌<◌, true, length, slice_index};
ghost use Rattle.sat_laws.specs.Trails.{Justified};
ghost use Rattle.sat_laws.specs.Formulas.{Formula, Implied, WellFormed};
ghost use Rattle.sat_laws.specs.Steps.{Covered, FollowsFrom, FollowFromKept, Apart};

use crate::marks::mark_of;
use sat_clauses::literal;
use sat_trail::{Places, noted, value};

// The mark of a variable whose value follows from those of the variables kept.
const IMPLIED: u32 = 2;

// The mark of a variable that is kept. One of the clause that is still to be reached has the mark 1.
const KEPT: u32 = 3;

// Makes each mark at most 1.
fn start_marks(marks: &mut [u32])
    ensures small { (v : ℕ) → slice_index marks.new v ≤ 1 }
    ensures marked { (v : ℕ) → 0 < slice_index marks.old v → 0 < slice_index marks.new v }
{
    for mark in marks.iter_mut() {
        *mark = (*mark).min(1);
    }
}

// Takes the marks off the variables that are implied.
fn settle_marks(marks: &mut [u32])
    ensures kept { (v : ℕ) → 0 < slice_index marks.old v → slice_index marks.old v ≢ 2 → 0 < slice_index marks.new v }
{
    for mark in marks.iter_mut() {
        if *mark == IMPLIED {
            *mark = 0;
        }
    }
}

// Whether the literals from `start` up to `end` but for `but` are false and of variables that are implied or kept.
fn covered(words: &[u32], values: &[u32], marks: &[u32], start: usize, end: usize, but: u32) -> bool
    ensures covered { result ≡ true → Covered words.now values.now start end but marks.now }
{
    for place in start..end {
        let l = literal(words, place);
        if l != but
            && (value(values, l) != 2 - l % 2 || mark_of(marks, (l / 2) as usize) < IMPLIED)
        {
            return false;
        }
    }
    true
}

// Whether the clause that forced a literal tells that its variable is implied.
fn implied(
    words: &[u32],
    ends: &[u32],
    clauses: usize,
    values: &[u32],
    marks: &[u32],
    notes: &[u32],
    places: &Places,
    literal: u32,
) -> bool
    requires well_formed { WellFormed words.now ends.now clauses (length values.now) }
    ensures follows { result ≡ true → (F : Formula) → Implied F words.now ends.now clauses → FollowsFrom F values.now marks.now 2 (literal / 2) }
{
    let reason = noted(notes, places.reason, (literal / 2) as usize) as usize;
    if reason == 0 || reason > clauses || value(values, literal) != 1 + literal % 2 {
        return false;
    }
    let start = ends[reason - 1] as usize;
    let end = ends[reason] as usize;
    covered(words, values, marks, start, end, literal)
}

// Marks the variables as implied whose values need no decision.
fn mark_undecided(values: &[u32], trail: &[u32], kinds: &[u32], marks: &mut [u32], top: usize)
    requires on_trail { top ≤ length trail.now }
    requires with_kinds { top ≤ length kinds.now }
    ensures follow { (F : Formula) → Justified F trail.now kinds.now top → FollowFromKept F values.now marks.old → FollowFromKept F values.now marks.new }
    ensures marked { (v : ℕ) → 0 < slice_index marks.old v → 0 < slice_index marks.new v }
{
    for i in 0..top {
        if kinds[i] == 1 {
            return;
        }
        let l = trail[i];
        let v = (l / 2) as usize;
        if v >= marks.len() || marks[v] >= IMPLIED || value(values, l) != 1 + l % 2 {
            continue;
        }
        marks[v] = IMPLIED;
    }
}

// Marks the variables of the trail as implied where the clause that forced their literal tells so, and else as kept if they are of
// the clause.
fn mark_trail(
    words: &[u32],
    ends: &[u32],
    clauses: usize,
    values: &[u32],
    trail: &[u32],
    marks: &mut [u32],
    notes: &[u32],
    places: &Places,
    top: usize,
)
    requires well_formed { WellFormed words.now ends.now clauses (length values.now) }
    requires on_trail { top ≤ length trail.now }
    ensures follow { (F : Formula) → Implied F words.now ends.now clauses → FollowFromKept F values.now marks.old → FollowFromKept F values.now marks.new }
    ensures marked { (v : ℕ) → 0 < slice_index marks.old v → 0 < slice_index marks.new v }
{
    for i in 0..top {
        let l = trail[i];
        let v = (l / 2) as usize;
        if v >= marks.len() || marks[v] >= IMPLIED {
            continue;
        }
        if implied(words, ends, clauses, values, marks, notes, places, l) {
            marks[v] = IMPLIED;
            continue;
        }
        if marks[v] == 0 {
            continue;
        }
        marks[v] = KEPT;
    }
}

// Takes marks off whose variables follow from the others.
pub(crate) fn minimize(
    words: &[u32],
    ends: &[u32],
    clauses: usize,
    values: &[u32],
    trail: &[u32],
    kinds: &[u32],
    marks: &mut [u32],
    notes: &[u32],
    places: &Places,
    top: usize,
)
    requires well_formed { WellFormed words.now ends.now clauses (length values.now) }
    requires on_trail { top ≤ length trail.now }
    requires with_kinds { top ≤ length kinds.now }
    ensures apart { (F : Formula) → Implied F words.now ends.now clauses → Justified F trail.now kinds.now top → Apart F values.now marks.old → Apart F values.now marks.new }
{
    start_marks(marks);
    mark_undecided(values, trail, kinds, marks, top);
    mark_trail(
        words, ends, clauses, values, trail, marks, notes, places, top,
    );
    settle_marks(marks);
}
