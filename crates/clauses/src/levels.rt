// Group 6: the levels of the gates, and the depth limit.
ghost use Rattle.std.specs.Prelude.{◌≡◌, suc, ◌+◌, ◌-◌, ◌<◌, ◌≤◌, [], ◌∷◌};
ghost use Rattle.cnf.specs.Variables.{S as Var_S, H, O, pos, neg, each, each_fan_in, each_gate};
ghost use Rattle.cnf.specs.Clauses.{levels_limited as group_6};
ghost use Rattle.cnf.specs.Numbers.{numbered};
ghost use Rattle.clauses.specs.Numbering.{numbered_by};

use crate::literals::{neg, pos};
use crate::numbering::Numbering;
use cnf::ClauseSink;

// If a fan-in of a gate is another gate, the gate's level is above that gate's.
fn above_gate<S: ClauseSink>(sink: &mut S, numbering: &Numbering, gate: u8, fan_in: u8, node: u8)
    ensures { S.took sink.old (numbered (numbered_by numbering.now) (each 0 numbering.now.depth (λ e.
        (neg (Var_S gate fan_in node) ∷ neg (H node e) ∷ pos (H gate (e + 1)) ∷ []) ∷ []))) sink.new }
{
    for level in 0..numbering.depth {
        sink.take(&[
            neg(numbering.fan_in_is(gate, fan_in, node)),
            neg(numbering.level_exceeds(node, level)),
            pos(numbering.level_exceeds(gate, level + 1)),
        ]);
    }
}

// A gate's level is above that of the gate that a fan-in is.
fn above_fan_in<S: ClauseSink>(sink: &mut S, numbering: &Numbering, gate: u8, fan_in: u8)
    requires { suc numbering.now.inputs ≤ gate }
    ensures { S.took sink.old (numbered (numbered_by numbering.now) (each (suc numbering.now.inputs) (gate - suc numbering.now.inputs) (λ j. each 0 numbering.now.depth (λ e.
        (neg (Var_S gate fan_in j) ∷ neg (H j e) ∷ pos (H gate (e + 1)) ∷ []) ∷ [])))) sink.new }
{
    for node in numbering.inputs + 1..gate {
        above_gate(sink, numbering, gate, fan_in, node);
    }
}

// A gate's level is above those of its fan-ins.
fn above_fan_ins<S: ClauseSink>(sink: &mut S, numbering: &Numbering, gate: u8)
    requires { suc numbering.now.inputs ≤ gate }
    ensures { S.took sink.old (numbered (numbered_by numbering.now) (each_fan_in (λ c. each (suc numbering.now.inputs) (gate - suc numbering.now.inputs) (λ j. each 0 numbering.now.depth (λ e.
        (neg (Var_S gate c j) ∷ neg (H j e) ∷ pos (H gate (e + 1)) ∷ []) ∷ []))))) sink.new }
{
    for fan_in in 1..4 {
        above_fan_in(sink, numbering, gate, fan_in);
    }
}

// A gate's level exceeds 0, and is above those of its fan-ins.
fn level_of_gate<S: ClauseSink>(sink: &mut S, numbering: &Numbering, gate: u8)
    requires { suc numbering.now.inputs ≤ gate }
    ensures { S.took sink.old (numbered (numbered_by numbering.now) ((pos (H gate 0) ∷ []) ∷ each_fan_in (λ c. each (suc numbering.now.inputs) (gate - suc numbering.now.inputs) (λ j. each 0 numbering.now.depth (λ e.
        (neg (Var_S gate c j) ∷ neg (H j e) ∷ pos (H gate (e + 1)) ∷ []) ∷ []))))) sink.new }
{
    sink.take(&[pos(numbering.level_exceeds(gate, 0))]);
    above_fan_ins(sink, numbering, gate);
}

// The levels of the gates.
fn levels_of_gates<S: ClauseSink>(sink: &mut S, numbering: &Numbering)
    ensures { S.took sink.old (numbered (numbered_by numbering.now) (each_gate numbering.now.inputs numbering.now.gates (λ i. (pos (H i 0) ∷ []) ∷ each_fan_in (λ c. each (suc numbering.now.inputs) (i - suc numbering.now.inputs) (λ j. each 0 numbering.now.depth (λ e.
        (neg (Var_S i c j) ∷ neg (H j e) ∷ pos (H i (e + 1)) ∷ []) ∷ [])))))) sink.new }
{
    for gate in numbering.inputs + 1..numbering.inputs + 1 + numbering.gates {
        level_of_gate(sink, numbering, gate);
    }
}

// If the output is a gate, that gate's level does not exceed the depth limit.
fn output_level<S: ClauseSink>(sink: &mut S, numbering: &Numbering)
    ensures { S.took sink.old (numbered (numbered_by numbering.now) (each_gate numbering.now.inputs numbering.now.gates (λ j. (neg (O j) ∷ neg (H j numbering.now.depth) ∷ []) ∷ []))) sink.new }
{
    for gate in numbering.inputs + 1..numbering.inputs + 1 + numbering.gates {
        sink.take(&[
            neg(numbering.output_is(gate)),
            neg(numbering.level_exceeds(gate, numbering.depth)),
        ]);
    }
}

// Group 6: the levels, and the depth limit.
pub(crate) fn levels_limited<S: ClauseSink>(sink: &mut S, numbering: &Numbering)
    ensures { S.took sink.old (numbered (numbered_by numbering.now) (group_6 numbering.now.inputs numbering.now.depth numbering.now.gates)) sink.new }
{
    levels_of_gates(sink, numbering);
    output_level(sink, numbering);
}
