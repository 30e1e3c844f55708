// A sink that counts: how many clauses it took, and how many bytes their text has.
ghost use Rattle.std.specs.Prelude.{◌≡◌, length};
ghost use Rattle.cnf.specs.Text.{literal_text, clause_text, clauses_text};
ghost use Rattle.clause_text.specs.Counting.{saturated, CountsOn};
ghost use Rattle.clause_text.specs.Laws.{counts_nothing, counts_more, counts_more_clauses};

use crate::decimal::digit_count;
use cnf::{ClauseSink, Literal};

// How many clauses there are, and how many bytes their text has; both stop at the greatest number.
#[derive(Clone, Copy, Debug, PartialEq, Eq)]
pub(crate) struct TextLength {
    pub clauses: usize,
    pub bytes: usize,
}

// How many bytes the text of the literal has.
fn literal_length(literal: &Literal) -> usize
    ensures { result ≡ length (literal_text literal.now) }
{
    usize::from(literal.negated) + digit_count(literal.variable as u64) + 1
}

// How many bytes the text of the clause has.
fn clause_length(clause: &[Literal]) -> usize
    ensures { result ≡ saturated (length (clause_text clause.now)) }
{
    let mut bytes = 2usize;
    for literal in clause {
        bytes = bytes.saturating_add(literal_length(literal));
    }
    bytes
}

impl ClauseSink for TextLength {
    ghost took = { λ s cs t. CountsOn (length cs) s.clauses t.clauses × CountsOn (length (clauses_text cs)) s.bytes t.bytes };

    fn take(&mut self, clause: &[Literal]) {
        self.clauses = self.clauses.saturating_add(1);
        self.bytes = self.bytes.saturating_add(clause_length(clause));
    }

    ghost took_nothing = { λ s. (counts_nothing s.clauses, counts_nothing s.bytes) };

    ghost took_more = { λ s t u xs ys first second. (counts_more xs ys s.clauses t.clauses u.clauses first.0 second.0, counts_more_clauses xs ys s.bytes t.bytes u.bytes first.1 second.1) };
}
