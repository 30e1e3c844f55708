// The learnt clause, written behind the others.

ghost use Rattle.std.specs.Prelude.{◌≡◌, ℕ, ◌*◌, ◌≤◌, ◌<◌, IfSome, length, slice_index};
ghost use Rattle.sat_laws.specs.Formulas.{literal_at, WellFormed};
ghost use Rattle.sat_laws.specs.Steps.{Gathered, Learnt};

use crate::marks::mark_of;
use sat_clauses::write_literal;

// Writes the clause of the marked variables from `start` on, and says where it ends, if there is room.
fn gather(words: &mut [u32], values: &[u32], marks: &[u32], start: usize) -> Option<usize>
    requires small { (v : ℕ) → slice_index values.now v ≤ 2 }
    requires few { length values.now ≤ 32768 }
    requires within { start ≤ 2 * length words.old }
    ensures gathered { IfSome result (λ end. Gathered words.old values.now marks.now start words.new end) }
    ensures same { (j : ℕ) → j < start → literal_at words.new j ≡ literal_at words.old j }
{
    let mut end = start;
    for v in 0..values.len() {
        if mark_of(marks, v) == 0 || values[v] == 0 {
            continue;
        }
        if end / 2 >= words.len() {
            return None;
        }
        write_literal(words, end, 2 * v as u32 + (2 - values[v]));
        end += 1;
    }
    Some(end)
}

// Adds the clause of the marked variables, if there is room, and says how many clauses there are then.
pub(crate) fn learn(
    words: &mut [u32],
    ends: &mut [u32],
    clauses: usize,
    values: &[u32],
    marks: &[u32],
) -> usize
    requires well_formed { WellFormed words.old ends.old clauses (length values.now) }
    requires few { length values.now ≤ 32768 }
    requires small { (v : ℕ) → slice_index values.now v ≤ 2 }
    ensures learnt { Learnt words.old ends.old clauses values.now marks.now words.new ends.new result }
{
    let start = ends[clauses] as usize;
    match gather(words, values, marks, start) {
        None => clauses,
        Some(end) => {
            if end > 4294967295 || clauses + 1 >= ends.len() {
                return clauses;
            }
            ends[clauses + 1] = end as u32;
            clauses + 1
        }
    }
}
