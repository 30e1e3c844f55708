// The columns of the codes: bit t is what the code stands for in row t.
ghost use Rattle.std.specs.Prelude.{◌≡◌, ℕ, ◌<◌, ◌≤◌, [], slice_index_or};
ghost use Rattle.value_kinds.specs.Kinds.{columns as kind};
ghost use Rattle.enumeration_laws.specs.Columns.{CodeColumns};

use mig::Gate;
use value_kinds::{Column, ValueKind};

// The columns of the constant and of four inputs, and places for those of seven gates.
static FIRST_COLUMNS: [Column; 24] = [
    Column { rows: 0 },
    Column { rows: 0xffff },
    Column { rows: 0xaaaa },
    Column { rows: 0x5555 },
    Column { rows: 0xcccc },
    Column { rows: 0x3333 },
    Column { rows: 0xf0f0 },
    Column { rows: 0x0f0f },
    Column { rows: 0xff00 },
    Column { rows: 0x00ff },
    Column { rows: 0 },
    Column { rows: 0 },
    Column { rows: 0 },
    Column { rows: 0 },
    Column { rows: 0 },
    Column { rows: 0 },
    Column { rows: 0 },
    Column { rows: 0 },
    Column { rows: 0 },
    Column { rows: 0 },
    Column { rows: 0 },
    Column { rows: 0 },
    Column { rows: 0 },
    Column { rows: 0 },
];

// The columns of the constant and of four inputs.
pub(crate) fn start_columns() -> [Column; 24]
    ensures { (n : ℕ) → n ≤ 4 → CodeColumns n [] result }
{
    FIRST_COLUMNS
}

// The column of a gate.
pub(crate) fn gate_column(columns: &[Column; 24], gate: Gate) -> Column
    requires { (gate.first < 24) × ((gate.second < 24) × (gate.third < 24)) }
    ensures { let at = λ (code : ℕ). slice_index_or columns.now code kind.constant in
        result ≡ kind.majority (at gate.first) (at gate.second) (at gate.third) }
{
    Column::majority(
        columns[usize::from(gate.first)],
        columns[usize::from(gate.second)],
        columns[usize::from(gate.third)],
    )
}
