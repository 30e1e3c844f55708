// Where the search goes on after a conflict. Nothing is proved of this but that it is a place of the trail.

ghost use Rattle.std.specs.Prelude.{◌≤◌};

use sat_clauses::literal;
use sat_propagation::watch_clause;
use sat_trail::{
    ACTIVITY_STEP, CONFLICTS, DECISION_LEVEL, Places, RESTART_PHASE, RESTART_RUN, note, noted,
};

// Counts a conflict, and says whether the search is to start again from the first decision.
fn restarts(notes: &mut [u32]) -> bool {
    let step = noted(notes, ACTIVITY_STEP, 0);
    note(notes, ACTIVITY_STEP, 0, step.saturating_add(step / 16));
    let conflicts = noted(notes, CONFLICTS, 0).saturating_add(1);
    note(notes, CONFLICTS, 0, conflicts);
    let run = noted(notes, RESTART_RUN, 0);
    let phase = noted(notes, RESTART_PHASE, 0);
    if conflicts / 100 < phase {
        return false;
    }
    note(notes, CONFLICTS, 0, 0);
    if run & run.wrapping_neg() == phase {
        note(notes, RESTART_RUN, 0, run.saturating_add(1));
        note(notes, RESTART_PHASE, 0, 1);
    } else {
        note(notes, RESTART_PHASE, 0, phase.saturating_mul(2));
    }
    true
}

// Watches the learnt clause in its two last literals, and says up to which place the trail is kept.
pub(crate) fn backjump_place(
    words: &[u32],
    notes: &mut [u32],
    places: &Places,
    clause: usize,
    start: usize,
    end: usize,
    top: usize,
) -> usize
    ensures on_trail { result ≤ top }
{
    let mut last: u32 = 0;
    let mut last_at: u32 = 0;
    let mut second: u32 = 0;
    let mut second_at: u32 = 0;
    for place in start..end {
        let l = literal(words, place);
        let level = noted(notes, places.level, (l / 2) as usize).saturating_add(1);
        let at = (place - start).min(65535) as u32;
        if level > last {
            second = last;
            second_at = last_at;
            last = level;
            last_at = at;
        } else if level > second {
            second = level;
            second_at = at;
        }
    }
    if start.wrapping_add(1) < end {
        watch_clause(words, notes, places, clause, start, last_at, second_at);
    }
    let level = if restarts(notes) {
        0
    } else {
        second.saturating_sub(1)
    };
    note(notes, DECISION_LEVEL, 0, level);
    let place = noted(notes, places.decision, level as usize) as usize;
    place.min(top)
}
