// Values and the trail: what the search has decided, and what follows from it.
#![tactic(auto)]

mod notes;
mod trail;

pub use notes::{
    ACTIVITY_STEP, CONFLICTS, DECISION_LEVEL, LEARNT, LESSON, OPEN, Places, RESTART_PHASE,
    RESTART_RUN, SPAN, TALLY, TALLY_LENGTH, note, noted,
};
pub use trail::{backtrack, complement, cut_back, decide, push, value};
