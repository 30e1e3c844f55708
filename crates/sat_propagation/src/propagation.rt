// What follows from the literals of the trail.

ghost use Rattle.std.specs.Prelude.{◌<◌, length};
ghost use Rattle.sat_laws.specs.Formulas.{WellFormed};
ghost use Rattle.sat_laws.specs.Trails.{Consistent, Conflicts};
ghost use Rattle.sat_laws.specs.Steps.{Grown};

use crate::unit::infer;
use crate::watches::{rewatch, watch};
use sat_trail::{Places, complement, note, noted};

// Goes through the clauses that watch the complement of a literal of the trail.
fn follow(
    words: &[u32],
    ends: &[u32],
    clauses: usize,
    values: &mut [u32],
    trail: &mut [u32],
    kinds: &mut [u32],
    notes: &mut [u32],
    places: &Places,
    top: usize,
    literal: u32,
) -> (usize, usize)
    requires well_formed { WellFormed words.now ends.now clauses (length values.old) }
    requires consistent { Consistent values.old trail.old kinds.old top }
    ensures grown { Grown words.now ends.now clauses values.old trail.old kinds.old top values.new trail.new kinds.new result.0 }
    ensures conflict { Conflicts words.now ends.now clauses values.new result.1 }
{
    let mut grown = top;
    let mut conflict = clauses;
    let l = complement(literal);
    let mut next = noted(notes, places.first_watch, l as usize);
    note(notes, places.first_watch, l as usize, 0);
    for _ in 0..notes.len() {
        if next == 0 {
            break;
        }
        let node = next - 1;
        let word = noted(notes, places.node, node as usize);
        next = word / 65536;
        let clause = (node / 2) as usize;
        if conflict < clauses {
            watch(notes, places, node, l, word);
            continue;
        }
        if clause >= clauses {
            continue;
        }
        let start = ends[clause] as usize;
        let end = ends[clause + 1] as usize;
        if rewatch(words, values, notes, places, start, end, node, l) {
            continue;
        }
        (grown, conflict) = infer(
            words, ends, clauses, values, trail, kinds, notes, places, grown, clause,
        );
    }
    (grown, conflict)
}

// Propagates the literals of the trail from the place `from` on. Says how many literals the trail has then, and a clause that is
// false, or else `clauses`.
pub fn propagate(
    words: &[u32],
    ends: &[u32],
    clauses: usize,
    values: &mut [u32],
    trail: &mut [u32],
    kinds: &mut [u32],
    notes: &mut [u32],
    places: &Places,
    top: usize,
    from: usize,
) -> (usize, usize)
    requires well_formed { WellFormed words.now ends.now clauses (length values.old) }
    requires consistent { Consistent values.old trail.old kinds.old top }
    ensures grown { Grown words.now ends.now clauses values.old trail.old kinds.old top values.new trail.new kinds.new result.0 }
    ensures conflict { Conflicts words.now ends.now clauses values.new result.1 }
{
    let mut grown = top;
    let mut conflict = clauses;
    let mut at = from;
    while at < grown && conflict >= clauses {
        let l = trail[at];
        (grown, conflict) = follow(
            words, ends, clauses, values, trail, kinds, notes, places, grown, l,
        );
        at += 1;
    }
    (grown, conflict)
}
