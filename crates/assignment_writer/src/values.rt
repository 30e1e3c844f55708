// The values and levels of the nodes, written in their order.
ghost use Rattle.std.specs.Prelude.{◌≡◌, ◌+◌, ◌*◌, ◌^◌, ◌<◌, ◌∷◌, [], replicate};
ghost use Rattle.mig.specs.Networks.{net_of, size, node, bits, levels, value_at};
ghost use Rattle.mig.specs.Networks.{walk as walked};
ghost use Rattle.mig.specs.Questions.{row_start};
ghost use Rattle.cnf.specs.Variables.{each_row, all_A, all_B, all_H};
ghost use Rattle.assignment_writer.specs.Writing.{Wrote};
ghost use Rattle.assignment_writer.specs.Said.{said, first_bits, IsFormed};

use crate::writer::AssignmentWriter;
use mig::Network;
use outputs::{column, level};

// The network with another output.
fn with_output(network: &Network, output: u8) -> Network
    ensures { result ≡ record network.now { output = output } }
{
    Network { output, ..*network }
}

// The values of a code in the rows, as bits of a number.
fn code_rows(inputs: u8, network: &Network, code: u8) -> u16
    requires formed { IsFormed inputs network.now }
    requires of_a_node { node code < inputs + 1 + size (net_of network.now) }
    ensures { first_bits (2 ^ inputs) result ≡ each_row inputs (λ t.
        value_at bits (walked bits (row_start inputs t) (net_of network.now).gates) code ∷ []) }
{
    column(inputs, &with_output(network, code)).unwrap().rows
}

// The level of a code.
fn code_level(inputs: u8, network: &Network, code: u8) -> u8
    requires formed { IsFormed inputs network.now }
    requires of_a_node { node code < inputs + 1 + size (net_of network.now) }
    ensures { result ≡ value_at levels (walked levels (replicate (inputs + 1) 0) (net_of network.now).gates) code }
{
    level(inputs, &with_output(network, code)).unwrap()
}

impl<'a> AssignmentWriter<'a> {
    // Writes the value of each fan-in in each row.
    pub(crate) fn put_fan_in_values(&mut self, inputs: u8, network: &Network)
        requires { IsFormed inputs network.now }
        ensures { Wrote self.old (said inputs (net_of network.now) (all_A inputs (size (net_of network.now)))) self.new }
    {
        let rows = 1usize << inputs;
        let gates = network.gates();
        for gate in gates {
            self.put_bits(rows, code_rows(inputs, network, gate.first));
            self.put_bits(rows, code_rows(inputs, network, gate.second));
            self.put_bits(rows, code_rows(inputs, network, gate.third));
        }
    }

    // Writes the value of each gate in each row.
    pub(crate) fn put_gate_values(&mut self, inputs: u8, network: &Network)
        requires { IsFormed inputs network.now }
        ensures { Wrote self.old (said inputs (net_of network.now) (all_B inputs (size (net_of network.now)))) self.new }
    {
        let rows = 1usize << inputs;
        for i in 0..network.count {
            self.put_bits(rows, code_rows(inputs, network, 2 * (inputs + 1 + i)));
        }
    }

    // Writes for each gate which of the levels from 0 up to the depth limit its own exceeds.
    pub(crate) fn put_levels(&mut self, inputs: u8, depth: u8, network: &Network)
        requires { IsFormed inputs network.now }
        ensures { Wrote self.old (said inputs (net_of network.now) (all_H inputs depth (size (net_of network.now)))) self.new }
    {
        let numbers = usize::from(depth) + 1;
        for i in 0..network.count {
            self.put_below(numbers, code_level(inputs, network, 2 * (inputs + 1 + i)));
        }
    }
}
