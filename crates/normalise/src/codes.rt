// Codes and gates with their complements flipped.
ghost use Rattle.std.specs.Prelude.{◌≡◌};
ghost use Rattle.mig.specs.Normal.{flip, flip_naming, map_gate};
ghost use Rattle.mig.specs.Normal.{complements as complements_of};

use mig::Gate;

// The code of the same node with the other complement.
fn flipped(code: u8) -> u8
    ensures { result ≡ flip code }
{
    if code % 2 == 1 { code - 1 } else { code + 1 }
}

// The code, flipped if it names the node.
pub(crate) fn flipped_naming(code: u8, node: u8) -> u8
    ensures { result ≡ flip_naming node code }
{
    if code / 2 == node {
        flipped(code)
    } else {
        code
    }
}

// The gate with each of its three codes changed.
// Like `rename_gates` of crate carrying; both are private, since a public function over a closure has a precondition.
fn map_codes<F: Fn(u8) -> u8>(gate: Gate, change: F) -> Gate
    requires { F.IsAlwaysCallable change }
    ensures { F.post change gate.first result.first × (F.post change gate.second result.second × F.post change gate.third result.third) }
{
    Gate {
        first: change(gate.first),
        second: change(gate.second),
        third: change(gate.third),
    }
}

// The gate with each fan-in flipped that names the node.
pub(crate) fn gate_flipped_naming(gate: Gate, node: u8) -> Gate
    ensures { result ≡ map_gate (flip_naming node) gate }
{
    map_codes(gate, |code| flipped_naming(code, node))
}

// The gate with its three fan-ins flipped.
pub(crate) fn gate_flipped(gate: Gate) -> Gate
    ensures { result ≡ map_gate flip gate }
{
    map_codes(gate, flipped)
}

// How many of the gate's fan-ins are complemented.
pub(crate) fn complements(gate: Gate) -> u8
    ensures { result ≡ complements_of gate }
{
    gate.first % 2 + gate.second % 2 + gate.third % 2
}
