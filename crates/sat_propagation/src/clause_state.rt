// A look at one clause.

ghost use Rattle.std.specs.Prelude.{ℕ, ◌≤◌, slice_index};
ghost use Rattle.sat_propagation.specs.Looks.{Looked};

use sat_clauses::literal;
use sat_trail::value;

// What the values make of a clause.
pub enum ClauseState {
    Falsified, // each literal is false
    Forcing(usize), // each literal but that in the place is false, and that one is open
    Open(usize), // the literal in the place is open, and is not the only one
    Satisfied, // some literal is true
}

// Looks at the literals from `start` up to `end`.
pub fn look(words: &[u32], values: &[u32], start: usize, end: usize) -> ClauseState
    requires small { (v : ℕ) → slice_index values.now v ≤ 2 }
    ensures looked { Looked words.now values.now start end result }
{
    let mut open = end;
    for place in start..end {
        let l = literal(words, place);
        let x = value(values, l);
        if x == 1 + l % 2 {
            return ClauseState::Satisfied;
        }
        if x == 0 {
            if open < end {
                return ClauseState::Open(open);
            }
            open = place;
        }
    }
    if open < end {
        return ClauseState::Forcing(open);
    }
    ClauseState::Falsified
}
