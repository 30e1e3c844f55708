// What the search does next.

ghost use Rattle.std.specs.Prelude.{◌≡◌, ℕ, ◌/◌, ◌≤◌, ◌<◌, MatchOption, length, slice_index};
ghost use Rattle.sat_laws.specs.Formulas.{WellFormed};
ghost use Rattle.sat_laws.specs.Trails.{Conflicts};
ghost use Rattle.sat.specs.Steps.{AreAllGiven, Finds, Checked};

use sat_clauses::literal;
use sat_propagation::{ClauseState, look};
use sat_trail::{Places, noted};

// What to do next.
pub(crate) enum Step {
    Model, // the values are a model
    Decide(u32), // to try this literal
    Conflict(usize), // to learn from this false clause
}

// The literal to try next, or none where all variables have values.
fn pick(values: &[u32], notes: &[u32], places: &Places) -> Option<u32>
    requires few { length values.now ≤ 32768 }
    ensures picked { MatchOption result (AreAllGiven values.now) (λ l. (l / 2 < length values.now) × (slice_index values.now (l / 2) ≡ 0)) }
{
    let mut best = values.len();
    let mut most: u32 = 0;
    for v in 0..values.len() {
        if values[v] != 0 {
            continue;
        }
        let activity = noted(notes, places.activity, v);
        if best == values.len() || activity > most {
            best = v;
            most = activity;
        }
    }
    if best == values.len() {
        return None;
    }
    let l = 2 * best as u32;
    Some(if noted(notes, places.phase, best) == 2 {
        l + 1
    } else {
        l
    })
}

// Goes over the given clauses, with all variables valued.
fn check(words: &[u32], ends: &[u32], given: usize, values: &[u32]) -> Step
    requires well_formed { WellFormed words.now ends.now given (length values.now) }
    requires small { (v : ℕ) → slice_index values.now v ≤ 2 }
    ensures checked { Checked words.now ends.now given values.now result }
{
    for clause in 0..given {
        let start = ends[clause] as usize;
        let end = ends[clause + 1] as usize;
        match look(words, values, start, end) {
            ClauseState::Falsified => return Step::Conflict(clause),
            ClauseState::Forcing(place) => return Step::Decide(literal(words, place)),
            ClauseState::Open(place) => return Step::Decide(literal(words, place)),
            ClauseState::Satisfied => {}
        }
    }
    Step::Model
}

// What to do where nothing more follows, or where a clause is false.
pub(crate) fn next_step(
    words: &[u32],
    ends: &[u32],
    given: usize,
    clauses: usize,
    values: &[u32],
    notes: &[u32],
    places: &Places,
    conflict: usize,
) -> Step
    requires well_formed { WellFormed words.now ends.now clauses (length values.now) }
    requires given_first { given ≤ clauses }
    requires few { length values.now ≤ 32768 }
    requires small { (v : ℕ) → slice_index values.now v ≤ 2 }
    requires conflict { Conflicts words.now ends.now clauses values.now conflict }
    ensures finds { Finds words.now ends.now given clauses values.now result }
{
    if conflict < clauses {
        return Step::Conflict(conflict);
    }
    match pick(values, notes, places) {
        Some(l) => Step::Decide(l),
        None => check(words, ends, given, values),
    }
}
