// A sink that counts.
ghost use Rattle.std.specs.Prelude.{◌≡◌, ◌+◌, ◌<◌, length};
ghost use Rattle.clause_search.specs.Counting.{CountsMore};
ghost use Rattle.clause_search.specs.Counting.{counts_nothing, counts_more};

use cnf::{ClauseSink, Literal};

// How many clauses there are, up to the greatest number.
#[derive(Drop)]
pub(crate) struct ClauseCount {
    pub(crate) clauses: u32,
}

impl ClauseSink for ClauseCount {
    ghost took = { λ s cs t. CountsMore s.clauses cs t.clauses };

    fn take(&mut self, _clause: &[Literal]) {
        self.clauses = self.clauses.saturating_add(1);
    }

    ghost took_nothing = { λ s. counts_nothing s.clauses };

    ghost took_more = { λ s t u xs ys h k. counts_more s.clauses t.clauses u.clauses xs ys h k };
}
