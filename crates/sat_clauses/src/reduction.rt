// Dropping learnt clauses.

ghost use Rattle.std.specs.Prelude.{◌*◌, ◌≤◌, ◌<◌, length};
ghost use Rattle.sat_laws.specs.Formulas.{WellFormed};
ghost use Rattle.sat_laws.specs.Steps.{MovedDown, Reduced};

use crate::literals::{literal, write_literal};
use sat_trail::{LEARNT, SPAN, TALLY, TALLY_LENGTH, note, noted};

// The note of how many clauses were learnt says so where there was no room for one.
pub const FULL: u32 = 4294967295;

// Tallies the learnt clauses by their length, and says how many there are.
fn tally_lengths(ends: &[u32], notes: &mut [u32], given: usize, clauses: usize) -> u32
    requires table { clauses < length ends.now }
{
    for i in 0..TALLY_LENGTH {
        note(notes, TALLY, i as usize, 0);
    }
    let mut all: u32 = 0;
    for c in given..clauses {
        let long = ends[c + 1].saturating_sub(ends[c]);
        let i = long.min(TALLY_LENGTH - 1) as usize;
        let n = noted(notes, TALLY, i).saturating_add(1);
        note(notes, TALLY, i, n);
        all = all.saturating_add(1);
    }
    all
}

// The greatest length up to which no more than half of the tallied clauses lie.
fn half_length(notes: &[u32], all: u32) -> u32 {
    let mut most: u32 = 0;
    let mut sum: u32 = 0;
    for long in 0..TALLY_LENGTH {
        sum = sum.saturating_add(noted(notes, TALLY, long as usize));
        if sum <= all / 2 {
            most = long;
        }
    }
    most
}

// The length up to which learnt clauses are kept: that of the shorter half.
pub fn length_kept(ends: &[u32], notes: &mut [u32], given: usize, clauses: usize) -> u32
    requires table { clauses < length ends.now }
{
    let span = noted(notes, SPAN, 0).saturating_add(300);
    let full = noted(notes, LEARNT, 0) == FULL;
    note(notes, LEARNT, 0, 0);
    note(notes, SPAN, 0, span);
    let all = tally_lengths(ends, notes, given, clauses);
    let half = half_length(notes, all);
    if full { half } else { half.max(2) }
}

// Moves the literals from `start` up to `end` down to `target`.
fn move_down(words: &mut [u32], start: usize, end: usize, target: usize)
    requires down { target ≤ start }
    requires ordered { start ≤ end }
    requires within { end ≤ 2 * length words.old }
    ensures moved { MovedDown words.old start end target words.new }
{
    for place in start..end {
        let l = literal(words, place);
        write_literal(words, target + (place - start), l);
    }
}

// Drops the learnt clauses of more than `most` literals, and says how many clauses are left.
pub fn compact(
    words: &mut [u32],
    ends: &mut [u32],
    most: u32,
    given: usize,
    clauses: usize,
    variables: usize,
) -> usize
    requires well_formed { WellFormed words.old ends.old clauses variables }
    requires given_first { given ≤ clauses }
    ensures reduced { Reduced words.old ends.old given clauses variables words.new ends.new result }
{
    let mut kept = given;
    let mut start = ends[given] as usize;
    for c in given..clauses {
        let end = ends[c + 1] as usize;
        if end - start > most as usize {
            start = end;
            continue;
        }
        let target = ends[kept] as usize;
        move_down(words, start, end, target);
        ends[kept + 1] = (target + (end - start)) as u32;
        kept += 1;
        start = end;
    }
    kept
}
