// A sink that keeps clauses in words.
ghost use Rattle.std.specs.Prelude.{◌≡◌, ◌+◌, ◌*◌, ◌<◌, ◌≤◌, ℕ, List, [], ◌∷◌, ◌++◌, All, length, map, slice_index_or, Decides};
ghost use Rattle.cnf.specs.Numbers.{Clause};
ghost use Rattle.sat_laws.specs.Formulas.{literal_at};
ghost use Rattle.clause_words.specs.Stored.{Stores, Fits, StoresMore};
ghost use Rattle.clause_words.specs.Laws.{stores_nothing, stores_more};
ghost use Rattle.clause_words.specs.Codes.{code_of, IsSmall};

use cnf::{ClauseSink, Literal};
use sat_clauses::write_literal;

// The literals of the clauses, two in a word, and a table of the places where they end, which begins with 0.
#[derive(Drop)]
pub struct ClauseWords<'a> {
    pub words: &'a mut [u32],
    pub ends: &'a mut [u32],
    pub clauses: usize,
}

// The number by which the solver knows a literal.
fn literal_code(literal: Literal) -> u32
    ensures code { IsSmall literal → result ≡ code_of literal }
    ensures half_a_word { result < 65536 }
{
    if literal.variable == 0 || literal.variable > 32768 {
        return 0;
    }
    2 * (literal.variable - 1) + u32::from(!literal.negated)
}

// Writes the literals of a clause from a place on.
fn write_literals(words: &mut [u32], start: usize, clause: &[Literal])
    requires room { start + length clause.now ≤ 2 * length words.old }
    ensures as_many_words { length words.new ≡ length words.old }
    ensures written { All IsSmall clause.now → (j : ℕ) → j < length clause.now →
        literal_at words.new (start + j) ≡ slice_index_or (map code_of clause.now) j 0 }
    ensures before_stay { (j : ℕ) → j < start → literal_at words.new j ≡ literal_at words.old j }
{
    for (i, literal) in clause.iter().enumerate() {
        write_literal(words, start + i, literal_code(*literal));
    }
}

// Whether there is room for a clause of so many literals behind the others, which end at `start`.
fn has_room(words: &[u32], ends: &[u32], clauses: usize, start: usize, literals: usize) -> bool
    ensures { Decides result ((clauses + 1 < length ends.now) × (start + literals ≤ 2 * length words.now) × (start + literals < 4294967296)) }
{
    ends.len() > 1
        && clauses < ends.len() - 1
        && literals <= 4294967295
        && start <= 4294967295 - literals
        && (start + literals).div_ceil(2) <= words.len()
}

// Keeps a clause behind the others, if there is room, and gives the number of clauses then.
fn keep(words: &mut [u32], ends: &mut [u32], clauses: usize, clause: &[Literal]) -> usize
    ensures as_many_words { length words.new ≡ length words.old }
    ensures as_many_ends { length ends.new ≡ length ends.old }
    ensures stored { (xs : List Clause) → Stores words.old ends.old clauses xs
        → Fits (length words.old) (length ends.old) (xs ++ (clause.now ∷ [])) → Stores words.new ends.new result (xs ++ (clause.now ∷ [])) }
{
    if clauses >= ends.len() {
        return clauses;
    }
    let start = ends[clauses] as usize;
    if !has_room(words, ends, clauses, start, clause.len()) {
        return clauses;
    }
    write_literals(words, start, clause);
    ends[clauses + 1] = (start + clause.len()) as u32;
    clauses + 1
}

impl<'a> ClauseSink for ClauseWords<'a> {
    ghost took = { StoresMore };

    fn take(&mut self, clause: &[Literal]) {
        self.clauses = keep(self.words, self.ends, self.clauses, clause);
    }

    ghost took_nothing = { stores_nothing };

    ghost took_more = { stores_more };
}
