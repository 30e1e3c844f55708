// The nodes that the fan-ins and the output of a network are, and which of them are complemented.
ghost use Rattle.std.specs.Prelude.{ℕ, ◌+◌, ◌∷◌, [], ◌++◌};
ghost use Rattle.mig.specs.Networks.{net_of, size, node};
ghost use Rattle.cnf.specs.Variables.{all_S, all_N, all_O, Q};
ghost use Rattle.assignment_writer.specs.Writing.{Wrote};
ghost use Rattle.assignment_writer.specs.Said.{said};

use crate::writer::AssignmentWriter;
use mig::Network;

impl<'a> AssignmentWriter<'a> {
    // Writes for each fan-in which of the earlier nodes it is.
    pub(crate) fn put_nodes(&mut self, inputs: u8, network: &Network)
        ensures { Wrote self.old (said inputs (net_of network.now) (all_S inputs (size (net_of network.now)))) self.new }
    {
        let gates = network.gates();
        for (i, gate) in gates.iter().enumerate() {
            let node = usize::from(inputs) + 1 + i;
            self.put_one_of(node, gate.first / 2);
            self.put_one_of(node, gate.second / 2);
            self.put_one_of(node, gate.third / 2);
        }
    }

    // Writes for each fan-in whether it is complemented.
    pub(crate) fn put_complements(&mut self, network: &Network)
        ensures { (n : ℕ) → Wrote self.old (said n (net_of network.now) (all_N n (size (net_of network.now)))) self.new }
    {
        let gates = network.gates();
        for gate in gates {
            self.put(gate.first % 2 == 1);
            self.put(gate.second % 2 == 1);
            self.put(gate.third % 2 == 1);
        }
    }

    // Writes which node the output is, and whether it is complemented.
    pub(crate) fn put_output(&mut self, inputs: u8, network: &Network)
        ensures { Wrote self.old (said inputs (net_of network.now) (all_O inputs (size (net_of network.now)) ++ (Q ∷ []))) self.new }
    {
        let nodes = usize::from(inputs) + 1 + network.gates().len();
        self.put_one_of(nodes, network.output / 2);
        self.put(network.output % 2 == 1);
    }
}
