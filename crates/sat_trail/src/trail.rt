// The literals that are true, in their order, with the values of their variables.

ghost use Rattle.std.specs.Prelude.{◌≡◌, ◌+◌, ◌-◌, ◌*◌, ◌/◌, ◌%◌, ◌≤◌, ◌<◌, length, slice_index};
ghost use Rattle.sat_laws.specs.Trails.{Consistent};
ghost use Rattle.sat_laws.specs.Steps.{Pushed, Unwound, Backtracked, Decided};

use crate::notes::{DECISION_LEVEL, Places, note, noted};

// The value of the literal's variable: 0 where it has none.
pub fn value(values: &[u32], literal: u32) -> u32
    ensures { result ≡ slice_index values.now (literal / 2) }
{
    let v = (literal / 2) as usize;
    if v < values.len() { values[v] } else { 0 }
}

// The complement of a literal.
pub fn complement(literal: u32) -> u32
    ensures { result ≡ literal + 1 - 2 * (literal % 2) }
{
    if literal % 2 == 0 {
        literal + 1
    } else {
        literal - 1
    }
}

// Puts a literal on the trail: as a decision where the kind is 1, and else as forced.
pub fn push(
    values: &mut [u32],
    trail: &mut [u32],
    kinds: &mut [u32],
    top: usize,
    literal: u32,
    kind: u32,
)
    requires variable { literal / 2 < length values.old }
    requires room { top < length trail.old }
    requires room_for_kind { top < length kinds.old }
    ensures pushed { Pushed values.old trail.old kinds.old top literal kind values.new trail.new kinds.new }
{
    values[(literal / 2) as usize] = 1 + literal % 2;
    trail[top] = literal;
    kinds[top] = kind;
}

// Takes the literals off from the last decision on, and says where it was, plus one, or 0 where there is none.
fn unwind(
    values: &mut [u32],
    trail: &[u32],
    kinds: &[u32],
    notes: &mut [u32],
    places: &Places,
    top: usize,
) -> usize
    requires { Consistent values.old trail.now kinds.now top }
    ensures unwound { Unwound trail.now kinds.now top values.new result }
{
    let mut t = top;
    while t > 0 {
        t -= 1;
        let v = (trail[t] / 2) as usize;
        note(notes, places.phase, v, values[v]);
        values[v] = 0;
        if kinds[t] == 1 {
            return t + 1;
        }
    }
    0
}

// Takes the literals from the place `to` on off.
pub fn cut_back(
    values: &mut [u32],
    trail: &[u32],
    kinds: &[u32],
    notes: &mut [u32],
    places: &Places,
    top: usize,
    to: usize,
)
    requires consistent { Consistent values.old trail.now kinds.now top }
    requires below { to ≤ top }
    ensures consistent { Consistent values.new trail.now kinds.now to }
{
    let mut t = top;
    while t > to {
        t -= 1;
        let v = (trail[t] / 2) as usize;
        note(notes, places.phase, v, values[v]);
        values[v] = 0;
    }
}

// Goes back to the last decision, and takes its complement as forced. Says how many literals the trail has then, and 0 where
// there was no decision.
pub fn backtrack(
    values: &mut [u32],
    trail: &mut [u32],
    kinds: &mut [u32],
    notes: &mut [u32],
    places: &Places,
    top: usize,
) -> usize
    requires { Consistent values.old trail.old kinds.old top }
    ensures backtracked { Backtracked trail.old kinds.old top values.new trail.new kinds.new result }
{
    let r = unwind(values, trail, kinds, notes, places, top);
    if r == 0 {
        return 0;
    }
    let literal = trail[r - 1];
    let other = complement(literal);
    push(values, trail, kinds, r - 1, other, 0);
    let level = noted(notes, DECISION_LEVEL, 0).saturating_sub(1);
    note(notes, DECISION_LEVEL, 0, level);
    let v = (literal / 2) as usize;
    note(notes, places.level, v, level);
    note(notes, places.reason, v, 0);
    r
}

// Puts a decision on the trail.
pub fn decide(
    values: &mut [u32],
    trail: &mut [u32],
    kinds: &mut [u32],
    notes: &mut [u32],
    places: &Places,
    top: usize,
    literal: u32,
)
    requires consistent { Consistent values.old trail.old kinds.old top }
    requires variable { literal / 2 < length values.old }
    requires free { slice_index values.old (literal / 2) ≡ 0 }
    ensures decided { Decided values.old trail.old kinds.old top values.new trail.new kinds.new }
{
    push(values, trail, kinds, top, literal, 1);
    let level = noted(notes, DECISION_LEVEL, 0);
    if top < 4294967296 {
        note(notes, places.decision, level as usize, top as u32);
    }
    let next = level.saturating_add(1);
    note(notes, DECISION_LEVEL, 0, next);
    let v = (literal / 2) as usize;
    note(notes, places.level, v, next);
    note(notes, places.reason, v, 0);
}
