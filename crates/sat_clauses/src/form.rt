// Whether words hold clauses.

ghost use Rattle.std.specs.Prelude.{Decides};
ghost use Rattle.sat_laws.specs.Formulas.{WellFormed};

use crate::literals::literal;

// Whether the clauses lie within the words, one after another, and have variables below `variables`.
pub fn well_formed(words: &[u32], ends: &[u32], clauses: usize, variables: usize) -> bool
    ensures decided { Decides result (WellFormed words.now ends.now clauses variables) }
{
    if clauses >= ends.len() {
        return false;
    }
    for c in 0..clauses {
        if ends[c] > ends[c + 1] {
            return false;
        }
    }
    let end = ends[clauses] as usize;
    if end / 2 + end % 2 > words.len() {
        return false;
    }
    for place in 0..end {
        if (literal(words, place) / 2) as usize >= variables {
            return false;
        }
    }
    true
}
