// The walk over a network: the value of every node, in any kind.
#![tactic(auto)]

ghost use Rattle.std.specs.Prelude.{◌≡◌, ◌+◌, ◌<◌, ◌≤◌, ◌++◌, length, take, drop, IfOk, MatchResult};
ghost use Rattle.mig.specs.Networks.{net_of, node, value_at, gate_value, output_value, GateBelow, Ordered};
ghost use Rattle.mig.specs.Networks.{walk as walked};
ghost use Rattle.walk.specs.Places.{start_of};
ghost use Rattle.mig.specs.Normal.{normalised};
ghost use Rattle.mig.specs.Rules.{walk_refusal, unless_refused};

use checks::check_network;
use mig::{Gate, Network, Refusal};
use value_kinds::ValueKind;

// What a code stands for, of the values of the nodes.
fn code_value<V: ValueKind>(values: &[V], code: u8) -> V
    requires { node code < length values.now }
    ensures { result ≡ value_at V.kind values.now code }
{
    let value = values[(code / 2) as usize];
    if code % 2 == 1 {
        value.complement()
    } else {
        value
    }
}

// The value of a gate, of the values of the nodes.
fn gate_value<V: ValueKind>(values: &[V], gate: Gate) -> V
    requires { GateBelow (length values.now) gate }
    ensures { result ≡ gate_value V.kind values.now gate }
{
    let a = code_value(values, gate.first);
    let b = code_value(values, gate.second);
    let c = code_value(values, gate.third);
    V::majority(a, b, c)
}

// Writes the value of each gate behind the values of the first `before` nodes, the constant and the inputs.
fn write_gates<V: ValueKind>(gates: &[Gate], before: usize, values: &mut [V])
    requires long { before + length gates.now ≤ length values.old }
    requires ordered { Ordered before gates.now }
    ensures { values.new ≡ walked V.kind (take before values.old) gates.now ++ drop (before + length gates.now) values.old }
{
    for (i, gate) in gates.iter().enumerate() {
        values[before + i] = gate_value(values, *gate);
    }
}

// The walk, in any kind: from the values of the inputs, in the places from 1 on, the value of every node in its own
// place. It answers the value of the output.
pub fn walk<V: ValueKind>(inputs: u8, network: &Network, values: &mut [V]) -> Result<V, Refusal>
    ensures answer { result ≡ unless_refused (walk_refusal inputs network.now (length values.old)) (output_value V.kind (start_of V.kind inputs values.old) (net_of network.now)) }
    ensures values_of_all_nodes { MatchResult result (λ _. values.new ≡ walked V.kind (start_of V.kind inputs values.old) (net_of network.now).gates ++ drop (inputs + 1 + network.now.count) values.old) (λ _. values.new ≡ values.old) }
    ensures kept_by_normalising { IfOk result (λ v. v ≡ output_value V.kind (start_of V.kind inputs values.old) (normalised inputs (net_of network.now))) }
{
    check_network(inputs, network)?;
    let before = inputs as usize + 1;
    if values.len() < before + network.count as usize {
        return Err(Refusal::BufferTooShort);
    }
    values[0] = V::constant();
    write_gates(network.gates(), before, values);
    Ok(code_value(values, network.output))
}
