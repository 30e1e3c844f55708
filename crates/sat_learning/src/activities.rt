// Activities: how often variables were met of late. Nothing is proved of them.

use sat_clauses::literal;
use sat_trail::{ACTIVITY_STEP, LESSON, Places, note, noted};

// Begins the study of a conflict, in which no variable has been met.
pub(crate) fn begin_lesson(notes: &mut [u32]) {
    let lesson = noted(notes, LESSON, 0).saturating_add(1);
    note(notes, LESSON, 0, lesson);
}

// Notes that a variable was met, once for each conflict.
pub(crate) fn bump(notes: &mut [u32], places: &Places, variable: usize, variables: usize) {
    let lesson = noted(notes, LESSON, 0);
    if noted(notes, places.met, variable) == lesson {
        return;
    }
    note(notes, places.met, variable, lesson);
    let step = noted(notes, ACTIVITY_STEP, 0);
    let activity = noted(notes, places.activity, variable).saturating_add(step);
    note(notes, places.activity, variable, activity);
    if activity > 2000000000 {
        for v in 0..variables {
            let less = noted(notes, places.activity, v) / 16;
            note(notes, places.activity, v, less);
        }
        note(notes, ACTIVITY_STEP, 0, (step / 16).max(1));
    }
}

// Notes that the variables of the literals from `start` up to `end` were met, but for those that need no decision.
fn bump_clause(
    words: &[u32],
    notes: &mut [u32],
    places: &Places,
    start: usize,
    end: usize,
    variables: usize,
) {
    for place in start..end {
        let v = (literal(words, place) / 2) as usize;
        if noted(notes, places.level, v) > 0 {
            bump(notes, places, v, variables);
        }
    }
}

// Notes that the variables were met of the clauses that forced the variables of the clause to be learnt.
pub(crate) fn bump_reasons(
    words: &[u32],
    ends: &[u32],
    marks: &[u32],
    notes: &mut [u32],
    places: &Places,
) {
    for v in 0..marks.len() {
        let reason = noted(notes, places.reason, v) as usize;
        if marks[v] == 0 || reason == 0 || reason >= ends.len() {
            continue;
        }
        let start = ends[reason - 1] as usize;
        let end = ends[reason] as usize;
        bump_clause(words, notes, places, start, end, marks.len());
    }
}
