// The network that an assignment tells.
ghost use Rattle.std.specs.Prelude.{◌≡◌, ◌≤◌, IfOk};
ghost use Rattle.mig.specs.Networks.{net_of, network_of, size};
ghost use Rattle.mig.specs.Questions.{Meets};
ghost use Rattle.cnf.specs.Meaning.{read_code, read_gate, read_net};
ghost use Rattle.cnf.specs.Rules.{reading_answer};
ghost use Rattle.assignment_reader.specs.Told.{told_by};

use crate::bits::{all_bits, bit, last_that_holds};
use crate::clause_check::ClauseCheck;
use clauses::{Numbering, generate, variable_count};
use mig::{Gate, Network, Question, Refusal};

// The code of a fan-in of a gate.
fn fan_in_code(bytes: &[u8], numbering: &Numbering, gate: u8, fan_in: u8) -> u8
    requires { gate ≤ 12 }
    ensures { result ≡ read_code (told_by numbering.now bytes.now) gate fan_in }
{
    let node = last_that_holds(bytes, numbering.fan_in_is(gate, fan_in, 0), gate);
    let complemented = numbering.fan_in_complemented(gate, fan_in) as usize;
    2 * node + u8::from(bit(bytes, complemented))
}

// A gate.
fn gate_told(bytes: &[u8], numbering: &Numbering, gate: u8) -> Gate
    requires { gate ≤ 12 }
    ensures { result ≡ read_gate (told_by numbering.now bytes.now) gate }
{
    Gate {
        first: fan_in_code(bytes, numbering, gate, 1),
        second: fan_in_code(bytes, numbering, gate, 2),
        third: fan_in_code(bytes, numbering, gate, 3),
    }
}

// The network.
fn network_told(bytes: &[u8], numbering: &Numbering) -> Network
    ensures { result ≡ network_of (read_net numbering.now.inputs numbering.now.gates (told_by numbering.now bytes.now)) }
{
    let first = numbering.inputs + 1;
    let mut gates = [Gate::default(); 7];
    for place in 0..numbering.gates {
        gates[place as usize] = gate_told(bytes, numbering, first + place);
    }
    let node = last_that_holds(bytes, numbering.output_is(0), first + numbering.gates);
    let complemented = numbering.output_complemented() as usize;
    Network {
        count: numbering.gates,
        gates,
        output: 2 * node + u8::from(bit(bytes, complemented)),
    }
}

// The network that an assignment of the clauses of a question and a number of gates tells: one byte of 0 or 1 for each
// variable.
pub fn read_assignment(
    question: &Question,
    gates: u8,
    assignment: &[u8],
) -> Result<Network, Refusal>
    ensures answer { result ≡ reading_answer question.now gates assignment.now }
    ensures has_r_gates_and_meets_the_question { IfOk result (λ network. (size (net_of network) ≡ gates) × Meets question.now (net_of network)) }
{
    let variables = variable_count(question, gates)?;
    if assignment.len() != variables as usize || !all_bits(assignment) {
        return Err(Refusal::NoAssignment);
    }
    let mut check = ClauseCheck {
        bytes: assignment,
        hold: true,
    };
    generate(question, gates, &mut check)?;
    if !check.hold {
        return Err(Refusal::ClauseFails);
    }
    let numbering = Numbering::new(question, gates)?;
    Ok(network_told(assignment, &numbering))
}
