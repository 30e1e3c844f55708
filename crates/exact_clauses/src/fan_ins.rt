// Symmetry clauses of the fan-ins of a gate: complements, rising nodes, buffers.
ghost use Rattle.std.specs.Prelude.{◌≡◌, suc, ◌<◌, ◌≤◌, [], ◌∷◌};
ghost use Rattle.cnf.specs.Variables.{S as Var_S, N, neg, each};
ghost use Rattle.cnf.specs.Numbers.{numbered};
ghost use Rattle.clauses.specs.Numbering.{numbered_by};
ghost use Rattle.symmetry_laws.specs.Symmetry.{no_two_complements, no_fall};
ghost use Rattle.exact_clauses.specs.Pairs.{first_two_rise};
ghost use Rattle.symmetry_laws.specs.Symmetry.{complements_once as group_a, fan_ins_rise as group_b, buffers_copy_gates as group_c};

use clauses::{Numbering, neg, pos};
use cnf::ClauseSink;

// Not two fan-ins of a gate are complemented.
fn one_complement<S: ClauseSink>(sink: &mut S, numbering: &Numbering, gate: u8)
    ensures { S.took sink.old (numbered (numbered_by numbering.now) (no_two_complements gate)) sink.new }
{
    let first = numbering.fan_in_complemented(gate, 1);
    let second = numbering.fan_in_complemented(gate, 2);
    let third = numbering.fan_in_complemented(gate, 3);
    sink.take(&[neg(first), neg(second)]);
    sink.take(&[neg(first), neg(third)]);
    sink.take(&[neg(second), neg(third)]);
}

// Group a: at most one fan-in of a gate is complemented.
pub(crate) fn complements_once<S: ClauseSink>(sink: &mut S, numbering: &Numbering)
    ensures { S.took sink.old (numbered (numbered_by numbering.now) (group_a numbering.now.inputs numbering.now.gates)) sink.new }
{
    for gate in numbering.inputs + 1..numbering.inputs + 1 + numbering.gates {
        one_complement(sink, numbering, gate);
    }
}

// Not a node before one that is not behind it, as the first two fan-ins of a gate; but both may be the constant, if the second
// is complemented.
fn first_two<S: ClauseSink>(sink: &mut S, numbering: &Numbering, gate: u8, node: u8, next: u8)
    ensures { S.took sink.old (numbered (numbered_by numbering.now) (first_two_rise gate node next ∷ [])) sink.new }
{
    let first = neg(numbering.fan_in_is(gate, 1, node));
    let second = neg(numbering.fan_in_is(gate, 2, next));
    if node == 0 {
        sink.take(&[first, second, pos(numbering.fan_in_complemented(gate, 2))]);
    } else {
        sink.take(&[first, second]);
    }
}

// Not a node before one that is not behind it.
fn no_fall<S: ClauseSink>(sink: &mut S, numbering: &Numbering, gate: u8, node: u8, next: u8)
    ensures { S.took sink.old (numbered (numbered_by numbering.now) (no_fall gate node next)) sink.new }
{
    first_two(sink, numbering, gate, node, next);
    sink.take(&[
        neg(numbering.fan_in_is(gate, 2, node)),
        neg(numbering.fan_in_is(gate, 3, next)),
    ]);
}

// Not a node before one of those that are not behind it.
fn no_falls<S: ClauseSink>(sink: &mut S, numbering: &Numbering, gate: u8, node: u8)
    requires { node < 255 }
    ensures { S.took sink.old (numbered (numbered_by numbering.now) (each 0 (suc node) (no_fall gate node))) sink.new }
{
    for next in 0..node + 1 {
        no_fall(sink, numbering, gate, node, next);
    }
}

// The nodes of the fan-ins of a gate rise.
fn rising<S: ClauseSink>(sink: &mut S, numbering: &Numbering, gate: u8)
    ensures { S.took sink.old (numbered (numbered_by numbering.now) (each 0 gate (λ j. each 0 (suc j) (no_fall gate j)))) sink.new }
{
    for node in 0..gate {
        no_falls(sink, numbering, gate, node);
    }
}

// Group b: the nodes of the fan-ins of each gate rise, or the first two are the constant and its complement.
pub(crate) fn fan_ins_rise<S: ClauseSink>(sink: &mut S, numbering: &Numbering)
    ensures { S.took sink.old (numbered (numbered_by numbering.now) (group_b numbering.now.inputs numbering.now.gates)) sink.new }
{
    for gate in numbering.inputs + 1..numbering.inputs + 1 + numbering.gates {
        rising(sink, numbering, gate);
    }
}

// A gate whose first two fan-ins are the constant copies neither the constant nor an input.
fn copies_gate<S: ClauseSink>(sink: &mut S, numbering: &Numbering, gate: u8)
    ensures { S.took sink.old (numbered (numbered_by numbering.now) (each 0 (suc numbering.now.inputs) (λ j.
        (neg (Var_S gate 1 0) ∷ neg (Var_S gate 2 0) ∷ neg (Var_S gate 3 j) ∷ []) ∷ []))) sink.new }
{
    for node in 0..numbering.inputs + 1 {
        sink.take(&[
            neg(numbering.fan_in_is(gate, 1, 0)),
            neg(numbering.fan_in_is(gate, 2, 0)),
            neg(numbering.fan_in_is(gate, 3, node)),
        ]);
    }
}

// Group c: a gate whose first two fan-ins are the constant copies a gate.
pub(crate) fn buffers_copy_gates<S: ClauseSink>(sink: &mut S, numbering: &Numbering)
    ensures { S.took sink.old (numbered (numbered_by numbering.now) (group_c numbering.now.inputs numbering.now.gates)) sink.new }
{
    for gate in numbering.inputs + 1..numbering.inputs + 1 + numbering.gates {
        copies_gate(sink, numbering, gate);
    }
}
