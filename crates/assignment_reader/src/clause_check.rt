// A sink that tests whether each clause holds.
ghost use Rattle.std.specs.Prelude.{◌≡◌, ◌&&◌};
ghost use Rattle.std.specs.List.{list_any};
ghost use Rattle.std.proofs.Common.{rules};
ghost use Rattle.std.proofs.Math.Bool.{and-true, and_assoc};
ghost use Rattle.std.proofs.lemmas.List.Folds.{list_all-append};
ghost use Rattle.cnf.specs.Numbers.{literal_holds, clause_holds, all_hold};
ghost use Rattle.cnf.specs.Rules.{bits_of_bytes};

use crate::bits::bit;
use cnf::{ClauseSink, Literal};

// An assignment, and whether all clauses that were taken hold in it.
#[derive(Drop)]
pub(crate) struct ClauseCheck<'a> {
    pub bytes: &'a [u8],
    pub hold: bool,
}

// Whether a literal holds.
fn literal_holds(bytes: &[u8], literal: Literal) -> bool
    ensures { result ≡ literal_holds (bits_of_bytes bytes.now) literal }
{
    bit(bytes, literal.variable as usize) != literal.negated
}

// Whether a clause holds: one of its literals does.
fn clause_holds(bytes: &[u8], clause: &[Literal]) -> bool
    ensures { result ≡ clause_holds (bits_of_bytes bytes.now) clause.now }
{
    clause.iter().any(|literal| literal_holds(bytes, *literal))
}

impl ClauseSink for ClauseCheck<'_> {
    ghost took = { λ s clauses t. (t.bytes.now ≡ s.bytes.now) × (t.hold ≡ (s.hold && all_hold (bits_of_bytes s.bytes.now) clauses)) };

    ghost took_nothing = { Prim.search (rules, and-true) };

    ghost took_more = { Prim.search (rules, list_all-append, and_assoc) };

    fn take(&mut self, clause: &[Literal]) {
        self.hold &= clause_holds(self.bytes, clause);
    }
}
