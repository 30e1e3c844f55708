// How often the gates are used, counted and written use by use.
ghost use Rattle.std.specs.Prelude.{◌≡◌, ◌+◌, ◌<◌, ◌≤◌, ◌∷◌, [], ◌++◌, length};
ghost use Rattle.mig.specs.Networks.{net_of, size, node, names};
ghost use Rattle.cnf.specs.Variables.{all_K};
ghost use Rattle.assignment_writer.specs.Writing.{Wrote};
ghost use Rattle.assignment_writer.specs.Said.{said, below, IsFormed};
ghost use Rattle.assignment_writer.specs.Uses.{names_in, counted};

use crate::writer::AssignmentWriter;
use mig::{Gate, Network};

impl<'a> AssignmentWriter<'a> {
    // Counts one use more, by a code, and writes which of the numbers up to the fan-out limit the count has reached.
    fn put_count(&mut self, node: u8, code: u8, count: u8, fan_out: u8) -> u8
        requires { count < 255 }
        ensures count { result ≡ count + names node code }
        ensures at_most_one_more { result ≤ count + 1 }
        ensures written { Wrote self.old (below fan_out (count + names node code)) self.new }
    {
        let counted = count + u8::from(code / 2 == node);
        self.put_below(usize::from(fan_out), counted);
        counted
    }

    // Counts the uses of a node by later gates and by the output, and writes after each use what the count has reached.
    fn put_counts_of(&mut self, node: u8, later: &[Gate], output: u8, fan_out: u8)
        requires { length later.now ≤ 7 }
        ensures { Wrote self.old (counted fan_out 0 (names_in node later.now ++ (names node output ∷ []))) self.new }
    {
        let mut count = 0;
        for gate in later {
            count = self.put_count(node, gate.first, count, fan_out);
            count = self.put_count(node, gate.second, count, fan_out);
            count = self.put_count(node, gate.third, count, fan_out);
        }
        self.put_count(node, output, count, fan_out);
    }

    // Writes for each gate whose uses outnumber the fan-out limit, after each use, what the count has reached.
    pub(crate) fn put_counts(&mut self, inputs: u8, fan_out: u8, network: &Network)
        requires { IsFormed inputs network.now }
        ensures { Wrote self.old (said inputs (net_of network.now) (all_K inputs fan_out (size (net_of network.now)))) self.new }
    {
        let gates = network.gates();
        for i in 0..network.count {
            let later = &gates[usize::from(i) + 1..];
            if usize::from(fan_out) < 3 * later.len() + 1 {
                self.put_counts_of(inputs + 1 + i, later, network.output, fan_out);
            }
        }
    }
}
