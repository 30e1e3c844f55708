// Whether a table is symmetric in two inputs. Inputs are counted from 0 here.
ghost use Rattle.std.specs.Prelude.{◌≡◌, ◌<◌, ◌≤◌};
ghost use Rattle.mig.specs.Tables.{bit_at};
ghost use Rattle.symmetry_laws.specs.Inputs.{exchange, exchanged_row, symmetric_in};

// What takes the place of an input, where two inputs change places.
fn exchange(first: u8, second: u8, input: u8) -> u8
    ensures { result ≡ exchange first second input }
{
    if input == first {
        second
    } else if input == second {
        first
    } else {
        input
    }
}

// The bit of a number in a place.
fn bit(number: u32, place: u32) -> bool
    requires { place < 32 }
    ensures { result ≡ bit_at number place }
{
    (number >> place) % 2 == 1
}

// The row with two inputs exchanged.
fn exchanged_row(inputs: u8, first: u8, second: u8, row: u32) -> u32
    requires few { inputs ≤ 4 }
    requires are_inputs { (first < inputs) × (second < inputs) }
    ensures { result ≡ exchanged_row inputs first second row }
{
    let mut exchanged = 0;
    for input in (0..inputs).rev() {
        exchanged = 2 * exchanged + u32::from(bit(row, u32::from(exchange(first, second, input))));
    }
    exchanged
}

// Whether the table stays as it is if two inputs are exchanged.
pub(crate) fn symmetric(inputs: u8, table: u32, first: u8, second: u8) -> bool
    requires few { inputs ≤ 4 }
    requires are_inputs { (first < inputs) × (second < inputs) }
    ensures { result ≡ symmetric_in inputs table first second }
{
    for row in 0..1u32 << inputs {
        if bit(table, exchanged_row(inputs, first, second, row)) != bit(table, row) {
            return false;
        }
    }
    true
}
