// Conflict analysis: false literals of the last level are replaced by what forced them, until one is left.

ghost use Rattle.std.specs.Prelude.{◌≡◌, ◌≤◌, ◌<◌, true, length};
ghost use Rattle.sat_laws.specs.Formulas.{Formula, Implied, WellFormed};
ghost use Rattle.sat_laws.specs.Steps.{Apart};

use crate::marks::{NO_LITERAL, mark, mark_of};
use sat_trail::{OPEN, Places, note, noted, value};

// Marks the variables of the clause to be learnt, and says whether there is one.
pub(crate) fn analyze(
    words: &[u32],
    ends: &[u32],
    clauses: usize,
    values: &[u32],
    trail: &[u32],
    marks: &mut [u32],
    notes: &mut [u32],
    places: &Places,
    top: usize,
    conflict: usize,
) -> bool
    requires well_formed { WellFormed words.now ends.now clauses (length values.now) }
    requires few { length values.now ≤ 32768 }
    requires on_trail { top ≤ length trail.now }
    requires held { conflict < clauses }
    ensures apart { result ≡ true → (F : Formula) → Implied F words.now ends.now clauses → Apart F values.now marks.new }
{
    note(notes, OPEN, 0, 0);
    let start = ends[conflict] as usize;
    let end = ends[conflict + 1] as usize;
    if !mark(words, values, marks, notes, places, start, end, NO_LITERAL) {
        return false;
    }
    let mut i = top;
    while i > 0 {
        i -= 1;
        let l = trail[i];
        let v = (l / 2) as usize;
        if mark_of(marks, v) == 0 {
            continue;
        }
        let open = noted(notes, OPEN, 0);
        if open <= 1 {
            return true;
        }
        note(notes, OPEN, 0, open - 1);
        let reason = noted(notes, places.reason, v) as usize;
        if reason == 0 || reason > clauses || v >= marks.len() || value(values, l) != 1 + l % 2 {
            return false;
        }
        marks[v] = 0;
        let start = ends[reason - 1] as usize;
        let end = ends[reason] as usize;
        if !mark(words, values, marks, notes, places, start, end, l) {
            return false;
        }
    }
    false
}
