// The assignment of a network: for each variable, what it says of the network.
ghost use Rattle.std.specs.Prelude.{◌≡◌, ◌≤◌, length, true, OnOk};
ghost use Rattle.mig.specs.Networks.{net_of, size};
ghost use Rattle.cnf.specs.Meaning.{padded};
ghost use Rattle.cnf.specs.Numbers.{question_variables, question_clauses, all_hold, read_bits};
ghost use Rattle.cnf.specs.Rules.{network_bits, bytes_of_bits, buffer_after, writing_refusal, writing_answer};
ghost use Rattle.assignment_writer.specs.Writing.{Wrote};
ghost use Rattle.assignment_writer.specs.Said.{said, IsFormed};

use crate::writer::AssignmentWriter;
use clauses::variable_count;
use examine::examine;
use mig::{Gate, Network, Question, Refusal};

// The network with gates on 0, 0, 0 behind its own, so that there are `gates`.
fn padded(network: &Network, gates: u8) -> Network
    requires few { gates ≤ 7 }
    requires no_fewer { network.now.count ≤ gates }
    ensures number { result.count ≡ gates }
    ensures behind_its_own { net_of result ≡ padded gates (net_of network.now) }
{
    let own = network.gates();
    let mut places = [Gate::default(); 7];
    places[..own.len()].copy_from_slice(own);
    Network {
        count: gates,
        gates: places,
        output: network.output,
    }
}

impl<'a> AssignmentWriter<'a> {
    // Writes for each variable what it says of the network.
    fn put_network(&mut self, question: &Question, network: &Network)
        requires { IsFormed question.now.inputs network.now }
        ensures { Wrote self.old
            (said question.now.inputs (net_of network.now) (question_variables question.now (size (net_of network.now)))) self.new }
    {
        let inputs = question.inputs;
        self.put_nodes(inputs, network);
        self.put_complements(network);
        self.put_fan_in_values(inputs, network);
        self.put_gate_values(inputs, network);
        self.put_output(inputs, network);
        self.put_levels(inputs, question.limits.depth, network);
        self.put_counts(inputs, question.limits.fan_out, network);
    }
}

// Writes a network as an assignment: for each variable of the clauses of the question and so many gates, in order, a byte
// of 0 or 1. It answers how many bytes these are; the bytes behind them stay.
pub fn write_assignment(
    question: &Question,
    gates: u8,
    network: &Network,
    buffer: &mut [u8],
) -> Result<usize, Refusal>
    ensures answer { result ≡ writing_answer question.now gates network.now (length buffer.old) }
    ensures every_variable_has_the_value_of_its_meaning { buffer.new ≡
        buffer_after (writing_refusal question.now gates network.now (length buffer.old))
        (bytes_of_bits (network_bits question.now gates network.now)) buffer.old }
    ensures satisfies_every_clause { OnOk result
        (all_hold (network_bits question.now gates network.now) (question_clauses question.now gates) ≡ true) }
    ensures reads_back_as_the_padded_network { OnOk result
        (read_bits question.now gates (network_bits question.now gates network.now) ≡ padded gates (net_of network.now)) }
{
    examine(question, network)?;
    if gates > 7 || network.count > gates {
        return Err(Refusal::GatesAboveReach);
    }
    if buffer.len() < variable_count(question, gates)? as usize {
        return Err(Refusal::BufferTooShort);
    }
    let network = padded(network, gates);
    let mut writer = AssignmentWriter { buffer, place: 0 };
    writer.put_network(question, &network);
    Ok(writer.place)
}
