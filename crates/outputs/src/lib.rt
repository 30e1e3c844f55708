// The output of a network in each of the three kinds.
#![tactic(auto)]

ghost use Rattle.std.specs.Mem.{type_size};
ghost use Rattle.std.specs.Prelude.{◌≡◌, ℕ, ◌*◌, ◌^◌, ◌<◌, ◌∷◌, take, IfOk};
ghost use Rattle.mig.specs.Networks.{net_of, output_value};
ghost use Rattle.mig.specs.Tables.{bit_at, table_from};
ghost use Rattle.mig.specs.Questions.{row_bit};
ghost use Rattle.mig.specs.Questions.{level as level_of};
ghost use Rattle.mig.specs.Rules.{form_refusal, unless_refused};

use mig::{Network, Refusal};
use value_kinds::{Column, Level, ValueKind};
use walk::walk;

// The bit `i` of a row: the value that the row gives input i + 1.
// Like `row_bit` of crate support: a public function for both would have to answer for places beyond the number.
fn input_bit(row: u8, i: u8) -> bool
    requires { i < 8 }
    ensures { result ≡ bit_at row i }
{
    (row >> i) % 2 == 1
}

// The output's value, from the values of the four inputs; those above the network's inputs are ignored.
fn output<V: ValueKind>(inputs: u8, network: &Network, given: [V; 4]) -> Result<V, Refusal>
    requires twelve_values_fit { 12 * type_size V.row < 2 ^ 63 }
    ensures { result ≡ unless_refused (form_refusal inputs network.now) (output_value V.kind (V.kind.constant ∷ take inputs given) (net_of network.now)) }
{
    let zero = V::constant();
    let [a, b, c, d] = given;
    let mut values = [zero, a, b, c, d, zero, zero, zero, zero, zero, zero, zero];
    walk(inputs, network, &mut values)
}

// What the network computes in one row; bits of the row above the inputs are ignored.
pub fn row_bit(inputs: u8, network: &Network, row: u8) -> Result<bool, Refusal>
    ensures { result ≡ unless_refused (form_refusal inputs network.now) (row_bit inputs (net_of network.now) row) }
{
    let given = [
        input_bit(row, 0),
        input_bit(row, 1),
        input_bit(row, 2),
        input_bit(row, 3),
    ];
    output(inputs, network, given)
}

// What the network computes in sixteen rows; bits of a row's number above the inputs are ignored.
pub fn column(inputs: u8, network: &Network) -> Result<Column, Refusal>
    ensures answer { result ≡ unless_refused (form_refusal inputs network.now) (record { rows = table_from 16 0 (row_bit inputs (net_of network.now)) }) }
    ensures agrees_with_row_bits { IfOk result (λ c. (t : ℕ) → t < 16 → bit_at c.rows t ≡ row_bit inputs (net_of network.now) t) }
{
    let given = [
        Column { rows: 0xaaaa },
        Column { rows: 0xcccc },
        Column { rows: 0xf0f0 },
        Column { rows: 0xff00 },
    ];
    output(inputs, network, given)
}

// The level of the network's output.
pub fn level(inputs: u8, network: &Network) -> Result<u8, Refusal>
    ensures { result ≡ unless_refused (form_refusal inputs network.now) (level_of inputs (net_of network.now)) }
{
    let given = [Level { value: 0 }; 4];
    Ok(output(inputs, network, given)?.value)
}
