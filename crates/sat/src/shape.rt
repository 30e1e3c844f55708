// How the words are laid out: the table of ends, the values, what the search keeps for itself, and the literals.

ghost use Rattle.std.specs.Prelude.{◌≡◌, ◌≤◌};
ghost use Rattle.sat.specs.Shapes.{table_length, values_place, notes_length, literals_place};

use sat_trail::{Places, TALLY, TALLY_LENGTH};

// How many variables and clauses there are, and how many learnt clauses there is to be room for.
#[derive(Clone, Copy)]
pub struct Shape {
    pub variables: u32,
    pub clauses: u32,
    pub learnt: u32,
}

// The length of the table of ends, which begins the words.
pub(crate) fn table_length(shape: &Shape) -> usize
    ensures length { result ≡ table_length shape.now }
{
    shape.clauses as usize + shape.learnt as usize + 1
}

// The place in the words where the values of the variables begin.
pub fn values_place(shape: &Shape) -> usize
    ensures place { result ≡ values_place shape.now }
{
    table_length(shape)
}

// The length of the notes.
pub(crate) fn notes_length(shape: &Shape) -> usize
    ensures length { result ≡ notes_length shape.now }
{
    82 + 8 * shape.variables as usize + 2 * shape.clauses as usize + 2 * shape.learnt as usize
}

// The place in the words where the literals begin, two in a word.
pub fn literals_place(shape: &Shape) -> usize
    ensures place { result ≡ literals_place shape.now }
{
    table_length(shape) + 4 * shape.variables as usize + notes_length(shape)
}

// Where the parts of the notes begin.
pub(crate) fn places(shape: &Shape) -> Places
    requires few_variables { shape.now.variables ≤ 32768 }
{
    let n = shape.variables;
    let level = TALLY + TALLY_LENGTH;
    Places {
        level,
        reason: level + n,
        activity: level + 2 * n,
        phase: level + 3 * n,
        met: level + 4 * n,
        first_watch: level + 5 * n,
        decision: level + 7 * n,
        node: level + 8 * n + 2,
    }
}
