// Symmetry clauses of the gates: the output, uses, the first row, neighbours.
ghost use Rattle.std.specs.Prelude.{◌≡◌, suc, ◌+◌, ◌-◌, ◌<◌, ◌≤◌, [], ◌∷◌, ◌++◌, map};
ghost use Rattle.cnf.specs.Variables.{S as Var_S, neg, each};
ghost use Rattle.cnf.specs.Numbers.{numbered, numbered_literal};
ghost use Rattle.clauses.specs.Numbering.{numbered_by};
ghost use Rattle.symmetry_laws.specs.Symmetry.{naming};
ghost use Rattle.symmetry_laws.specs.Symmetry.{output_last as group_d, gates_named as group_e, first_row_zero as group_f, neighbours_ordered as group_g};

use crate::naming::write_naming;
use clauses::{Numbering, neg, pos};
use cnf::ClauseSink;

// Group d: the output is the last gate, if there are gates.
pub(crate) fn output_last<S: ClauseSink>(sink: &mut S, numbering: &Numbering)
    ensures { S.took sink.old (numbered (numbered_by numbering.now) (group_d numbering.now.inputs numbering.now.gates)) sink.new }
{
    if numbering.gates > 0 {
        sink.take(&[pos(numbering.output_is(numbering.inputs + numbering.gates))]);
    }
}

// A gate is named by a later one.
fn gate_named<S: ClauseSink>(sink: &mut S, numbering: &Numbering, gate: u8)
    requires { (suc numbering.now.inputs ≤ gate) × (gate ≤ numbering.now.inputs + numbering.now.gates) }
    ensures { S.took sink.old (map (numbered_literal (numbered_by numbering.now)) (each (suc gate) (numbering.now.inputs + numbering.now.gates - gate) (naming gate)) ∷ []) sink.new }
{
    let mut literals = [pos(0); 18];
    let count = write_naming(
        &mut literals,
        0,
        numbering,
        gate,
        gate + 1,
        numbering.inputs + numbering.gates + 1,
    );
    sink.take(&literals[..count]);
}

// Group e: each gate but the last is named by a later one.
pub(crate) fn gates_named<S: ClauseSink>(sink: &mut S, numbering: &Numbering)
    ensures { S.took sink.old (numbered (numbered_by numbering.now) (group_e numbering.now.inputs numbering.now.gates)) sink.new }
{
    for gate in numbering.inputs + 1..numbering.inputs + 1 + numbering.gates.saturating_sub(1) {
        gate_named(sink, numbering, gate);
    }
}

// Group f: in row 0, where each input is 0, each gate is 0.
pub(crate) fn first_row_zero<S: ClauseSink>(sink: &mut S, numbering: &Numbering)
    ensures { S.took sink.old (numbered (numbered_by numbering.now) (group_f numbering.now.inputs numbering.now.gates)) sink.new }
{
    for gate in numbering.inputs + 1..numbering.inputs + 1 + numbering.gates {
        sink.take(&[neg(numbering.gate_value(gate, 0))]);
    }
}

// If the third fan-in of a gate is the node, that of the next gate is none before the node.
fn next_not_before<S: ClauseSink>(sink: &mut S, numbering: &Numbering, gate: u8, node: u8)
    requires { gate < 255 }
    ensures { S.took sink.old (numbered (numbered_by numbering.now) (each 0 node (λ k. (neg (Var_S gate 3 node) ∷ neg (Var_S (suc gate) 3 k) ∷ []) ∷ []))) sink.new }
{
    for earlier in 0..node {
        sink.take(&[
            neg(numbering.fan_in_is(gate, 3, node)),
            neg(numbering.fan_in_is(gate + 1, 3, earlier)),
        ]);
    }
}

// The third fan-in of the next gate is not before that of a gate.
fn next_in_order<S: ClauseSink>(sink: &mut S, numbering: &Numbering, gate: u8)
    requires { gate < 255 }
    ensures { S.took sink.old (numbered (numbered_by numbering.now) (each 0 gate (λ j. each 0 j (λ k. (neg (Var_S gate 3 j) ∷ neg (Var_S (suc gate) 3 k) ∷ []) ∷ [])))) sink.new }
{
    for node in 0..gate {
        next_not_before(sink, numbering, gate, node);
    }
}

// Group g: the third fan-ins of neighbouring gates do not fall.
pub(crate) fn neighbours_ordered<S: ClauseSink>(sink: &mut S, numbering: &Numbering)
    ensures { S.took sink.old (numbered (numbered_by numbering.now) (group_g numbering.now.inputs numbering.now.gates)) sink.new }
{
    for gate in numbering.inputs + 1..numbering.inputs + 1 + numbering.gates.saturating_sub(1) {
        next_in_order(sink, numbering, gate);
    }
}
