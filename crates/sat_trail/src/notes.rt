// The notes: what guides the search. Nothing is proved of what they say, so they can cost time, and never an answer.

ghost use Rattle.std.specs.Prelude.{◌≡◌};
ghost use Rattle.sat_trail.specs.Notes.{note_at, with_note};

// The first words of the notes.
pub const DECISION_LEVEL: u32 = 0; // the number of decisions on the trail

pub const ACTIVITY_STEP: u32 = 1; // what is added to the activity of a variable that is met

pub const CONFLICTS: u32 = 2; // conflicts since the last restart

pub const OPEN: u32 = 3; // marked variables of the last level that are still to be resolved

pub const RESTART_RUN: u32 = 4; // two numbers that say how long the search runs until the next restart

pub const RESTART_PHASE: u32 = 5;

pub const LEARNT: u32 = 7; // clauses learnt since the last reduction

pub const SPAN: u32 = 8; // how many are to be learnt before the next

pub const LESSON: u32 = 9; // the number of the conflict that is studied

pub const TALLY: u32 = 16; // by length: how many learnt clauses have it

pub const TALLY_LENGTH: u32 = 64;

// Where the other parts of the notes begin.
#[derive(Clone, Copy)]
pub struct Places {
    pub level: u32, // by variable: the level at which it got its value
    pub reason: u32, // by variable: the clause that gave the value, plus one, or 0
    pub activity: u32, // by variable: how often it was met of late
    pub phase: u32, // by variable: its last value
    pub met: u32, // by variable: the number of the last conflict in whose study it was met
    pub first_watch: u32, // by literal: the first node that watches it, plus one, or 0
    pub decision: u32, // by level: the place of its decision on the trail
    pub node: u32, // two by clause: the next node in the high half, the place in the clause in the low half
}

// The word of a part, and 0 past the end.
#[tactic(auto, unfolding(crate::specs::Notes::note_at))]
pub fn noted(notes: &[u32], part: u32, index: usize) -> u32
    ensures noted { result ≡ note_at notes.now part index }
{
    let place = index.saturating_add(part as usize);
    if place < notes.len() { notes[place] } else { 0 }
}

// Writes a word of a part, and nothing past the end.
#[tactic(auto, unfolding(crate::specs::Notes::with_note))]
pub fn note(notes: &mut [u32], part: u32, index: usize, value: u32)
    ensures written { notes.new ≡ with_note notes.old part index value }
{
    let target = index.saturating_add(part as usize);
    if target < notes.len() {
        notes[target] = value;
    }
}
