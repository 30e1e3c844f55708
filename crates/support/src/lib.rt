// The support of a table: the inputs on which it depends.
#![tactic(auto)]

ghost use Rattle.std.specs.Prelude.{◌≡◌, ◌<◌, ◌≤◌, IfOk};
ghost use Rattle.mig.specs.Rules.{unless_refused, table_refusal};
ghost use Rattle.mig.specs.Tables.{bit_at};
ghost use Rattle.support_laws.specs.Support.{changes_at, depends_at, support_mask, support_size, CountsInputs, GateBound, LevelBound};

use checks::check_table;
use mig::Refusal;

// The bit of a table in a row.
// Like `input_bit` of crate outputs: a public function for both would have to answer for places beyond the number.
fn row_bit(table: u32, row: u32) -> bool
    requires { row < 32 }
    ensures { result ≡ bit_at table row }
{
    (table >> row) % 2 == 1
}

// Whether the table changes in a row when the input `place + 1` is complemented.
fn changes(table: u32, place: u8, row: u32) -> bool
    requires { (place < 4) × (row < 16) }
    ensures { result ≡ changes_at table place row }
{
    row_bit(table, row) != row_bit(table, row ^ (1 << place))
}

// Whether the table depends on the input `place + 1`: it changes in some row.
// Four private functions, in three crates, ask for `inputs ≤ 4`: a type that says so would be made at each public call.
fn depends(inputs: u8, table: u32, place: u8) -> bool
    requires { (inputs ≤ 4) × (place < inputs) }
    ensures { result ≡ depends_at inputs table place }
{
    (0..1u32 << inputs).any(|row| changes(table, place, row))
}

// The mask of the inputs on which the table depends: bit 0 for input 1.
// Four private functions, in three crates, ask for `inputs ≤ 4`: a type that says so would be made at each public call.
fn support_mask(inputs: u8, table: u32) -> u8
    requires { inputs ≤ 4 }
    ensures { result ≡ support_mask inputs table }
{
    (0..inputs)
        .map(|place| u8::from(depends(inputs, table, place)) << place)
        .sum()
}

// The number of inputs on which the table depends: by a rule of the project, the ones of the mask.
pub fn support(inputs: u8, table: u32) -> Result<u32, Refusal>
    ensures answer { result ≡ unless_refused (table_refusal inputs table) (support_size inputs table) }
    ensures counts_the_inputs_depended_on { IfOk result (λ s. CountsInputs inputs table s) }
    ensures at_most_two_a_gate_and_one { IfOk result (λ s. GateBound inputs table s) }
    ensures at_most_three_to_the_level { IfOk result (λ s. LevelBound inputs table s) }
{
    check_table(inputs, table)?;
    Ok(support_mask(inputs, table).count_ones())
}
