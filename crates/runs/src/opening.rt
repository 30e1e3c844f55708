// Opening a collection.
ghost use Rattle.std.specs.Prelude.{◌≡◌, ◌≤◌, length, None, map};
ghost use Rattle.std.specs.List.{AllByRecursion};
ghost use Rattle.mig.specs.Rules.{examine_refusal};
ghost use Rattle.mig.specs.Networks.{network_of};
ghost use Rattle.entries.specs.Rows.{table};
ghost use Rattle.collection_laws.specs.Opening.{gate, starters, starter_gates, starter, starter_question, Opens, DepositsOne};

use collection::Collection;
use collection_laws::Opening;
use mig::{Gate, Limits, Network, Question};

// A gate of three codes.
fn gate(first: u8, second: u8, third: u8) -> Gate
    ensures { result ≡ gate first second third }
{
    Gate {
        first,
        second,
        third,
    }
}

// The network of the gates.
fn network(gates: &[Gate], output: u8) -> Network
    requires { length gates.now ≤ 7 }
    ensures { result ≡ network_of (record { gates = gates.now; output = output }) }
{
    // A public function for this, and the same in crate known_cells, would have to answer for eight gates too.
    let mut places = [Gate::default(); 7];
    places[..gates.len()].copy_from_slice(gates);
    Network {
        count: gates.len() as u8,
        gates: places,
        output,
    }
}

// A table over three inputs, and the network of the gates for it.
fn starter(table: u32, gates: &[Gate], output: u8) -> (u32, Network)
    requires { length gates.now ≤ 7 }
    ensures { result ≡ starter table gates.now output }
{
    (table, network(gates, output))
}

// The starter set.
fn starters() -> [(u32, Network); 10]
    ensures { result ≡ starters }
{
    [
        starter(0x80, &[gate(0, 2, 4), gate(0, 6, 8)], 10),
        starter(0x28, &[gate(0, 4, 6), gate(2, 4, 6), gate(0, 9, 10)], 12),
        starter(0xa8, &[gate(0, 2, 4), gate(2, 6, 8)], 10),
        starter(
            0x16,
            &[gate(1, 2, 4), gate(2, 4, 6), gate(1, 6, 8), gate(0, 11, 12)],
            14,
        ),
        starter(0xe8, &[gate(2, 4, 6)], 8),
        starter(
            0x81,
            &[gate(0, 2, 4), gate(1, 2, 6), gate(0, 4, 7), gate(9, 10, 12)],
            15,
        ),
        starter(
            0x52,
            &[gate(0, 2, 4), gate(0, 2, 6), gate(2, 6, 9), gate(0, 11, 12)],
            14,
        ),
        starter(0xd8, &[gate(0, 2, 4), gate(0, 2, 5), gate(6, 8, 11)], 12),
        starter(
            0x6a,
            &[gate(0, 2, 4), gate(0, 2, 7), gate(2, 4, 6), gate(9, 10, 12)],
            14,
        ),
        starter(0x96, &[gate(2, 4, 6), gate(3, 4, 6), gate(2, 9, 10)], 12),
    ]
}

// The question of a table of the starter set: three inputs, under the widest limits.
fn starter_question(table: u32) -> Question
    ensures { result ≡ starter_question table }
{
    Question {
        inputs: 3,
        table,
        limits: Limits {
            depth: 7,
            fan_out: 19,
        },
    }
}

// Deposits a network of the starter set; a refused one alters nothing.
fn deposit_starter<S>(collection: &mut Collection<S>, starter: (u32, Network))
    ensures search_stays { collection.new.search ≡ collection.old.search }
    ensures deposited_by_the_rule { DepositsOne starter (table collection.old.entries) (table collection.new.entries) }
{
    let (table, network) = starter;
    let _ = collection.deposit(&starter_question(table), &network);
}

// A collection over a search: empty, or with the starter set.
pub fn open<S>(search: S, opening: Opening) -> Collection<S>
    ensures search_as_given { result.search ≡ search }
    ensures opened_by_the_rule { Opens opening (table result.entries) }
    ensures starters_meet_their_questions { AllByRecursion (λ x. examine_refusal (starter_question x.0) x.1 ≡ None) starters }
    ensures gates_of_the_starters { map (λ x. x.1.count) starters ≡ starter_gates }
{
    let mut collection = Collection::empty(search);
    if let Opening::WithStarters = opening {
        for starter in starters() {
            deposit_starter(&mut collection, starter);
        }
    }
    collection
}
