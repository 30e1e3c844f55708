// The three value kinds: the bit of one row, the column of sixteen rows, the level.
ghost use Rattle.std.specs.Prelude.{ℕ};
ghost use Rattle.mig.specs.Networks.{bits};
ghost use Rattle.value_kinds.specs.Kinds.{columns, capped_levels};
ghost use Rattle.std.proofs.Common.{rules};
ghost use Rattle.std.proofs.Math.Path.{ap};
ghost use Rattle.mig_laws.proofs.Columns.{column_lawful};

use crate::value_kind::ValueKind;

// The values of a node in sixteen rows: bit t is the value in row t.
#[derive(Clone, Copy)]
pub struct Column {
    pub rows: u16,
}

// The level of a node, which stops at 255.
#[derive(Clone, Copy)]
pub struct Level {
    pub value: u8,
}

impl ValueKind for bool {
    ghost kind = { bits };

    ghost complement_twice = { Prim.search rules };

    ghost complement_all = { Prim.search rules };

    fn constant() -> bool {
        false
    }

    fn complement(self) -> bool {
        !self
    }

    fn majority(a: bool, b: bool, c: bool) -> bool {
        if a { b || c } else { b && c }
    }
}

impl ValueKind for Column {
    ghost use Rattle.value_kinds.specs.declared.kinds.Column.{Column};

    ghost kind = { columns };

    ghost complement_twice = { λ x. ap {B = Column} (λ (n : ℕ). record { rows = n }) ((column_lawful 16).twice x.rows) };

    ghost complement_all = { λ x y z. ap {B = Column} (λ (n : ℕ). record { rows = n }) ((column_lawful 16).all x.rows y.rows z.rows) };

    fn constant() -> Column {
        Column { rows: 0 }
    }

    fn complement(self) -> Column {
        Column {
            rows: self.rows ^ 0xffff,
        }
    }

    fn majority(a: Column, b: Column, c: Column) -> Column {
        Column {
            rows: (a.rows & b.rows) | (c.rows & (a.rows | b.rows)),
        }
    }
}

impl ValueKind for Level {
    ghost kind = { capped_levels };

    ghost complement_twice = { Prim.search rules };

    ghost complement_all = { Prim.search rules };

    fn constant() -> Level {
        Level { value: 0 }
    }

    fn complement(self) -> Level {
        self
    }

    fn majority(a: Level, b: Level, c: Level) -> Level {
        Level {
            value: a.value.max(b.value.max(c.value)).saturating_add(1),
        }
    }
}
