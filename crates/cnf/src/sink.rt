// What takes clauses.
ghost use Rattle.std.specs.Prelude.{List, [], ◌∷◌, ◌++◌};
ghost use Rattle.cnf.specs.Numbers.{Clause};

use crate::literal::Literal;

// A sink takes clauses one after another: it counts them, writes them, tests them or keeps them.
pub trait ClauseSink {
    // the sink before, the clauses that it took since then in their order, and the sink after
    ghost took: { Self → List Clause → Self → Type 0 };

    // Takes one clause.
    fn take(&mut self, clause: &[Literal])
        ensures { took self.old (clause.now ∷ []) self.new };

    ghost took_nothing: { (s : Self) → took s [] s };

    ghost took_more: { (s t u : Self) (xs ys : List Clause) → took s xs t → took t ys u → took s (xs ++ ys) u };
}
