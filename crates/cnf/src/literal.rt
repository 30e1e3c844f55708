// The literals of clauses.

// A literal: a variable by its number, counted from 1, or its complement.
#[derive(Clone, Copy, Debug, PartialEq, Eq)]
pub struct Literal {
    pub variable: u32,
    pub negated: bool,
}
