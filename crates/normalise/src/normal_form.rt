// Normalising a network.
ghost use Rattle.std.specs.Prelude.{◌≡◌, ◌-◌, ◌<◌, ◌≤◌, ◌↔◌, drop, map, replicate, IfOk};
ghost use Rattle.mig.specs.declared.question.Question.{Question};
ghost use Rattle.mig.specs.Networks.{net_of, network_of, empty_gate};
ghost use Rattle.mig.specs.Questions.{Meets};
ghost use Rattle.mig.specs.Normal.{Normal, SameShape, flip_naming, map_gate};
ghost use Rattle.mig.specs.Normal.{turned as turned_net};
ghost use Rattle.mig.specs.Rules.{normalised_answer};

use crate::codes::{complements, flipped_naming, gate_flipped, gate_flipped_naming};
use checks::check_network;
use mig::{Gate, Network, Refusal};

// The network with its places behind the gates set to 0.
fn cleared(network: &Network) -> Network
    requires { network.now.count ≤ 7 }
    ensures { result ≡ network_of (net_of network.now) }
{
    // Two lines of the library, as in two other crates: a public function would have to answer for eight gates too.
    let mut gates = [Gate::default(); 7];
    gates[..usize::from(network.count)].copy_from_slice(network.gates());
    Network { gates, ..*network }
}

// Flips the codes of the gates that name the node.
fn flip_uses(gates: &mut [Gate], node: u8)
    ensures { gates.new ≡ map (map_gate (flip_naming node)) gates.old }
{
    for gate in gates.iter_mut() {
        *gate = gate_flipped_naming(*gate, node);
    }
}

// The network with the fan-ins of the gate at `place` flipped, and every code that names the gate.
// Four private functions, in three crates, ask for `inputs ≤ 4`: a type that says so would be made at each public call.
fn turned(inputs: u8, place: u8, network: Network) -> Network
    requires inputs { inputs ≤ 4 }
    requires place { place < network.count }
    requires few { network.count ≤ 7 }
    requires cleared { network ≡ network_of (net_of network) }
    ensures { result ≡ network_of (turned_net inputs place (net_of network)) }
{
    let node = inputs + 1 + place;
    let mut gates = network.gates;
    flip_uses(&mut gates[..usize::from(network.count)], node);
    gates[place as usize] = gate_flipped(network.gates[place as usize]);
    Network {
        count: network.count,
        gates,
        output: flipped_naming(network.output, node),
    }
}

// The network in normal form.
pub fn normalise(inputs: u8, network: &Network) -> Result<Network, Refusal>
    ensures answer { result ≡ normalised_answer inputs network.now }
    ensures is_normal { IfOk result (λ m. Normal (net_of m)) }
    ensures keeps_nodes_levels_and_fan_outs { IfOk result (λ m. SameShape inputs (net_of network.now) (net_of m)) }
    ensures places_behind_are_zero { IfOk result (λ m. (m.count ≡ network.now.count) × (drop m.count m.gates ≡ replicate (7 - m.count) empty_gate)) }
    ensures normal_networks_stay { Normal (net_of network.now) → IfOk result (λ m. net_of m ≡ net_of network.now) }
    ensures meets_the_same_questions { IfOk result (λ m. (q : Question) → q.inputs ≡ inputs → Meets q (net_of network.now) ↔ Meets q (net_of m)) }
{
    check_network(inputs, network)?;
    let mut normal = cleared(network);
    // The places are counted: a turned gate changes the gates behind it, which an iterator would not see.
    for i in 0..network.count {
        if complements(normal.gates[i as usize]) >= 2 {
            normal = turned(inputs, i, normal);
        }
    }
    Ok(normal)
}
