// The search: propagate, decide, learn, until there is a model or a conflict without a decision.

ghost use Rattle.std.specs.Prelude.{◌≡◌, ℕ, ◌+◌, ◌≤◌, ◌<◌, true, false, MatchOption, length, slice_index};
ghost use Rattle.sat_laws.specs.Formulas.{Assignment, ClausesHold, WellFormed};
ghost use Rattle.sat_laws.specs.Trails.{AreFalse, Consistent};
ghost use Rattle.sat_laws.specs.Steps.{Grown};
ghost use Rattle.sat.specs.Steps.{Ends, GoesOn, IsToldModel};

use crate::next::{Step, next_step};
use sat_learning::{recover, reduce, study};
use sat_propagation::{infer, propagate, watch_all};
use sat_trail::{
    ACTIVITY_STEP, DECISION_LEVEL, Places, RESTART_PHASE, RESTART_RUN, SPAN, backtrack, decide,
    note, noted,
};

// Takes what each clause gives with no decision. Says how many literals the trail has then.
fn start(
    words: &[u32],
    ends: &[u32],
    clauses: usize,
    values: &mut [u32],
    trail: &mut [u32],
    kinds: &mut [u32],
    notes: &mut [u32],
    places: &Places,
) -> usize
    requires well_formed { WellFormed words.now ends.now clauses (length values.old) }
    requires consistent { Consistent values.old trail.old kinds.old 0 }
    ensures grown { Grown words.now ends.now clauses values.old trail.old kinds.old 0 values.new trail.new kinds.new result }
{
    note(notes, ACTIVITY_STEP, 0, 100000);
    note(notes, RESTART_RUN, 0, 1);
    note(notes, RESTART_PHASE, 0, 1);
    note(notes, SPAN, 0, 1000);
    watch_all(words, ends, clauses, values, notes, places);
    let mut top = 0;
    for clause in 0..clauses {
        let (grown, _) = infer(
            words, ends, clauses, values, trail, kinds, notes, places, top, clause,
        );
        top = grown;
    }
    top
}

// Where the search goes on.
#[derive(Clone, Copy)]
struct Position {
    clauses: usize, // how many clauses are held
    top: usize, // how many literals the trail has
    from: usize, // the place of the first that is to be propagated
}

// Learns from a false clause, and goes back as far as that tells, or else to the last decision. None where the given clauses have
// no model.
fn resolve(
    words: &mut [u32],
    ends: &mut [u32],
    given: usize,
    clauses: usize,
    values: &mut [u32],
    trail: &mut [u32],
    kinds: &mut [u32],
    marks: &mut [u32],
    notes: &mut [u32],
    places: &Places,
    top: usize,
    conflict: usize,
) -> Option<Position>
    requires well_formed { WellFormed words.old ends.old clauses (length values.old) }
    requires consistent { Consistent values.old trail.old kinds.old top }
    requires few { length values.old ≤ 32768 }
    requires given_first { given ≤ clauses }
    requires held { conflict < clauses }
    requires is_false { AreFalse values.old words.old (slice_index ends.old conflict) (slice_index ends.old (conflict + 1)) }
    ensures resolved { MatchOption result (Ends given words.old ends.old clauses values.old trail.old kinds.old top) (λ p. GoesOn given words.old ends.old clauses values.old trail.old kinds.old top words.new ends.new p.clauses values.new trail.new kinds.new p.top) }
{
    let (more, cut) = study(
        words, ends, clauses, values, trail, kinds, marks, notes, places, top, conflict,
    );
    let Some(to) = cut else {
        let back = backtrack(values, trail, kinds, notes, places, top);
        if back == 0 {
            return None;
        }
        return Some(Position {
            clauses: more,
            top: back,
            from: back - 1,
        });
    };
    let grown = recover(
        words, ends, more, values, trail, kinds, notes, places, top, to,
    );
    Some(Position {
        clauses: reduce(words, ends, given, more, values, notes, places),
        top: grown,
        from: to,
    })
}

// Whether the first `given` clauses have a model, which the values then tell.
pub(crate) fn search(
    words: &mut [u32],
    ends: &mut [u32],
    given: usize,
    values: &mut [u32],
    trail: &mut [u32],
    kinds: &mut [u32],
    marks: &mut [u32],
    notes: &mut [u32],
    places: &Places,
) -> bool
    requires well_formed { WellFormed words.old ends.old given (length values.old) }
    requires few { length values.old ≤ 32768 }
    requires fresh { (v : ℕ) → slice_index values.old v ≡ 0 }
    requires room { length values.old ≤ length trail.old }
    requires room_for_kinds { length values.old ≤ length kinds.old }
    ensures satisfiable { result ≡ true → IsToldModel words.old ends.old given values.new }
    ensures unsatisfiable { result ≡ false → (m : Assignment) → ClausesHold m words.old ends.old given → ⊥ }
{
    let mut top = start(words, ends, given, values, trail, kinds, notes, places);
    let mut clauses = given;
    let mut from = 0;
    let mut fuel: u32 = 4000000000;
    loop {
        let (t, conflict) = propagate(
            words, ends, clauses, values, trail, kinds, notes, places, top, from,
        );
        match next_step(words, ends, given, clauses, values, notes, places, conflict) {
            Step::Model => return true,
            Step::Decide(l) => {
                decide(values, trail, kinds, notes, places, t, l);
                from = t;
                top = t + 1;
            }
            Step::Conflict(clause) => {
                if fuel == 0 || noted(notes, DECISION_LEVEL, 0) == 0 {
                    top = backtrack(values, trail, kinds, notes, places, t);
                    if top == 0 {
                        return false;
                    }
                    from = top - 1;
                    continue;
                }
                fuel -= 1;
                match resolve(
                    words, ends, given, clauses, values, trail, kinds, marks, notes, places, t,
                    clause,
                ) {
                    None => return false,
                    Some(position) => {
                        clauses = position.clauses;
                        top = position.top;
                        from = position.from;
                    }
                }
            }
        }
    }
}
