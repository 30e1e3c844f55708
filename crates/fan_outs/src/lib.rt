// How often the gates of a network are used.
#![tactic(auto)]

ghost use Rattle.std.specs.Prelude.{◌≡◌, ◌+◌, ◌≤◌};
ghost use Rattle.mig.specs.Networks.{net_of, names, uses, greatest_fan_out};
ghost use Rattle.mig.specs.Rules.{form_refusal, unless_refused};

use checks::check_network;
use mig::{Gate, Network, Refusal};

// 1 if the code names the node, else 0.
fn code_uses(code: u8, node: u8) -> u8
    ensures answer { result ≡ names node code }
    ensures bound { result ≤ 1 }
{
    u8::from(code / 2 == node)
}

// How many of a gate's fan-ins name the node.
fn gate_uses(gate: &Gate, node: u8) -> u8
    ensures count { result ≡ names node gate.now.first + names node gate.now.second + names node gate.now.third }
    ensures bound { result ≤ 3 }
{
    code_uses(gate.first, node) + code_uses(gate.second, node) + code_uses(gate.third, node)
}

// The fan-out of a node: how many fan-ins name it, and the output.
fn fan_out(network: &Network, node: u8) -> u8
    ensures { result ≡ uses node (net_of network.now) }
{
    let fan_ins: u8 = network
        .gates()
        .iter()
        .map(|gate| gate_uses(gate, node))
        .sum();
    fan_ins + code_uses(network.output, node)
}

// The greatest fan-out of a gate; 0 without gates.
pub fn greatest_fan_out(inputs: u8, network: &Network) -> Result<u8, Refusal>
    ensures { result ≡ unless_refused (form_refusal inputs network.now) (greatest_fan_out inputs (net_of network.now)) }
{
    check_network(inputs, network)?;
    let first = inputs + 1;
    let most = (first..first + network.count).fold(
        0,
        |most: u8, node| most.max(fan_out(network, node)),
    );
    Ok(most)
}
