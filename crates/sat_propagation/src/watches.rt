// Watches: a clause is looked at again when one of two of its literals becomes false. Each clause has two nodes, and a node
// stands in the list of the literal that it watches. Nothing is proved of this: a clause that is missed costs time alone.

use sat_clauses::literal;
use sat_trail::{Places, note, noted, value};

// Nodes have numbers below this one.
const NODES: u32 = 65535;

// Puts a node into the list of a literal, which stands in that place of its clause.
pub(crate) fn watch(notes: &mut [u32], places: &Places, node: u32, literal: u32, place: u32) {
    if node >= NODES {
        return;
    }
    let first = noted(notes, places.first_watch, literal as usize);
    note(
        notes,
        places.node,
        node as usize,
        first % 65536 * 65536 + place % 65536,
    );
    note(notes, places.first_watch, literal as usize, node + 1);
}

// Watches a clause, which begins at `start`, in two of its places.
pub fn watch_clause(
    words: &[u32],
    notes: &mut [u32],
    places: &Places,
    clause: usize,
    start: usize,
    first: u32,
    second: u32,
) {
    if clause >= 32767 {
        return;
    }
    let node = 2 * clause as u32;
    let l = literal(words, start.wrapping_add(first as usize));
    watch(notes, places, node, l, first);
    let l = literal(words, start.wrapping_add(second as usize));
    watch(notes, places, node + 1, l, second);
}

// Watches a clause in two places that are not false, if it has them.
fn watch_open(
    words: &[u32],
    values: &[u32],
    notes: &mut [u32],
    places: &Places,
    clause: usize,
    start: usize,
    end: usize,
) {
    if start.wrapping_add(1) >= end {
        return;
    }
    let mut first: u32 = 0;
    let mut second: u32 = 1;
    let mut found = false;
    for place in start..end {
        let l = literal(words, place);
        let at = place - start;
        if value(values, l) == 2 - l % 2 || at >= 65536 {
            continue;
        }
        if found {
            second = at as u32;
            break;
        }
        found = true;
        first = at as u32;
        second = if first == 0 { 1 } else { 0 };
    }
    watch_clause(words, notes, places, clause, start, first, second);
}

// Watches the clauses anew.
pub fn watch_all(
    words: &[u32],
    ends: &[u32],
    clauses: usize,
    values: &[u32],
    notes: &mut [u32],
    places: &Places,
) {
    for v in 0..values.len() {
        let l = v.wrapping_mul(2);
        note(notes, places.first_watch, l, 0);
        note(notes, places.first_watch, l.wrapping_add(1), 0);
    }
    for c in 0..clauses {
        if c < ends.len() && ends.len() - c > 1 {
            let start = ends[c] as usize;
            let end = ends[c + 1] as usize;
            watch_open(words, values, notes, places, c, start, end);
        }
    }
}

// Looks for another literal for a node, whose literal is false, and says whether the clause may be left at that.
pub(crate) fn rewatch(
    words: &[u32],
    values: &[u32],
    notes: &mut [u32],
    places: &Places,
    start: usize,
    end: usize,
    node: u32,
    false_literal: u32,
) -> bool {
    let own = noted(notes, places.node, node as usize);
    let partner = if node % 2 == 0 { node + 1 } else { node - 1 };
    let other = start.wrapping_add((noted(notes, places.node, partner as usize) % 65536) as usize);
    let l = literal(words, other);
    if value(values, l) == 1 + l % 2 {
        watch(notes, places, node, false_literal, own);
        return true;
    }
    for place in start..end {
        let l = literal(words, place);
        if place != other && value(values, l) != 2 - l % 2 {
            let at = place - start;
            if at < 65536 {
                watch(notes, places, node, l, at as u32);
                return true;
            }
        }
    }
    watch(notes, places, node, false_literal, own);
    false
}
