// Known cells: what `examine` and `normalise` answer on some networks, the representatives of some tables, what some bytes
// say, and the smallest clause text, as one proved table.
#![tactic(auto)]

ghost use Rattle.std.specs.Prelude.{◌≡◌, ◌≤◌, length, Some};
ghost use Rattle.mig.specs.Networks.{network_of};
ghost use Rattle.known_cells.specs.Table.{table, question, gate, three_gates, deposit_of_majority, smallest_clause_text};

use classes::representative;
use clause_text::clause_text;
use examine::examine;
use mig::{Gate, Limits, Network, Question, Refusal};
use normalise::normalise;
use records::{Part, Reader};

// The answers on the known cells.
#[derive(Clone, Copy)]
pub struct KnownCells {
    pub majority: Result<(u8, u8), Refusal>,
    pub conjunction: Result<(u8, u8), Refusal>,
    pub parity: Result<(u8, u8), Refusal>,
    pub parity_in_one_level: Result<(u8, u8), Refusal>,
    pub normal_form: Result<Network, Refusal>,
    pub class_of_constant_0: Result<u16, Refusal>,
    pub class_of_constant_1: Result<u16, Refusal>,
    pub class_of_an_input: Result<u16, Refusal>,
    pub class_of_majority: Result<u16, Refusal>,
    pub deposit_of_majority: Option<Part>,
    pub smallest_clause_text: [u8; 21],
}

// The question of a number of inputs, a table and the two limits.
fn asked(inputs: u8, table: u32, depth: u8, fan_out: u8) -> Question
    ensures { result ≡ question inputs table depth fan_out }
{
    Question {
        inputs,
        table,
        limits: Limits { depth, fan_out },
    }
}

// The gate of three codes.
fn gate(first: u8, second: u8, third: u8) -> Gate
    ensures { result ≡ gate first second third }
{
    Gate {
        first,
        second,
        third,
    }
}

// The network of the gates.
fn network(gates: &[Gate], output: u8) -> Network
    requires { length gates.now ≤ 7 }
    ensures { result ≡ network_of (record { gates = gates.now; output = output }) }
{
    // Two lines of the library, as in two other crates: a public function would have to answer for eight gates too.
    let mut places = [Gate::default(); 7];
    places[..gates.len()].copy_from_slice(gates);
    Network {
        count: gates.len() as u8,
        gates: places,
        output,
    }
}

// The parity of three inputs.
fn three_gates() -> Network
    ensures { result ≡ three_gates }
{
    network(&[gate(2, 4, 6), gate(2, 4, 7), gate(9, 10, 6)], 12)
}

// What begins the bytes of a record that deposits the majority of three inputs.
fn deposit_of_majority() -> Option<Part>
    ensures { result ≡ Some deposit_of_majority }
{
    let bytes = [
        0x0d, 0x00, 0x01, 0x00, 0x03, 0xe8, 0x00, 0x01, 0x01, 0x00, 0x01, 0x02, 0x04, 0x06, 0x08,
    ];
    Reader::new(&bytes).next()
}

// The clause text of the constant 1 over no input, with no gate.
fn smallest_clause_text() -> [u8; 21]
    ensures { result ≡ smallest_clause_text }
{
    let mut text = [0; 21];
    let _bytes = clause_text(&asked(0, 0x1, 0, 1), 0, &mut text);
    text
}

// Examines and normalises the known cells, takes their representatives, reads a record, and writes a clause text.
pub fn known_cells() -> KnownCells
    ensures { result ≡ table }
{
    let three = three_gates();
    KnownCells {
        majority: examine(&asked(3, 0xe8, 1, 1), &network(&[gate(2, 4, 6)], 8)),
        conjunction: examine(&asked(2, 0x8, 7, 19), &network(&[gate(0, 2, 4)], 6)),
        parity: examine(&asked(3, 0x96, 2, 1), &three),
        parity_in_one_level: examine(&asked(3, 0x96, 1, 1), &three),
        normal_form: normalise(3, &network(&[gate(3, 5, 6)], 8)),
        class_of_constant_0: representative(0, 0x0),
        class_of_constant_1: representative(0, 0x1),
        class_of_an_input: representative(1, 0x2),
        class_of_majority: representative(3, 0xe8),
        deposit_of_majority: deposit_of_majority(),
        smallest_clause_text: smallest_clause_text(),
    }
}
