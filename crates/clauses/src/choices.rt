// Groups 1 and 4: each fan-in of a gate is exactly one earlier node, and the output is exactly one node.
ghost use Rattle.std.specs.Prelude.{◌≡◌, suc, ◌+◌, ◌-◌, ◌<◌, ◌≤◌, [], ◌∷◌, map};
ghost use Rattle.cnf.specs.Variables.{S as Var_S, pos, neg, each, each_fan_in};
ghost use Rattle.cnf.specs.Clauses.{exactly_one};
ghost use Rattle.cnf.specs.Clauses.{fan_ins_chosen as group_1, output_chosen as group_4};
ghost use Rattle.cnf.specs.Numbers.{numbered, numbered_literal};
ghost use Rattle.clauses.specs.Numbering.{numbered_by};
ghost use Rattle.clauses.specs.Choices.{variable_of};

use crate::literals::{neg, pos};
use crate::numbering::Numbering;
use cnf::{ClauseSink, Literal};

// What is chosen among the nodes: a fan-in of a gate, or the output.
#[derive(Clone, Copy)]
pub(crate) enum Choice {
    FanIn { gate: u8, fan_in: u8 },
    Output,
}

// The number of the variable that says that the node is chosen.
fn variable(numbering: &Numbering, choice: Choice, node: u8) -> u32
    ensures { result ≡ numbered_by numbering.now (variable_of choice node) }
{
    match choice {
        Choice::FanIn { gate, fan_in } => numbering.fan_in_is(gate, fan_in, node),
        Choice::Output => numbering.output_is(node),
    }
}

// One of the first `count` nodes is chosen.
fn some_node<S: ClauseSink>(sink: &mut S, numbering: &Numbering, choice: Choice, count: u8)
    requires { count ≤ 12 }
    ensures { S.took sink.old (map (numbered_literal (numbered_by numbering.now)) (each 0 count (λ j. pos (variable_of choice j) ∷ [])) ∷ []) sink.new }
{
    let mut literals = [pos(0); 12];
    for node in 0..count {
        literals[node as usize] = pos(variable(numbering, choice, node));
    }
    sink.take(&literals[..count as usize]);
}

// A node and a later one of the first `count` nodes are not both chosen.
fn not_both<S: ClauseSink>(sink: &mut S, numbering: &Numbering, choice: Choice, node: u8, count: u8)
    requires { node < count }
    ensures { S.took sink.old
        (numbered (numbered_by numbering.now) (each (suc node) (count - suc node) (λ y. (neg (variable_of choice node) ∷ neg (variable_of choice y) ∷ []) ∷ [])))
        sink.new }
{
    for later in node + 1..count {
        sink.take(&[
            neg(variable(numbering, choice, node)),
            neg(variable(numbering, choice, later)),
        ]);
    }
}

// Exactly one of the first `count` nodes is chosen.
fn one_node<S: ClauseSink>(sink: &mut S, numbering: &Numbering, choice: Choice, count: u8)
    requires { count ≤ 12 }
    ensures { S.took sink.old (numbered (numbered_by numbering.now) (exactly_one count (variable_of choice))) sink.new }
{
    some_node(sink, numbering, choice, count);
    for node in 0..count {
        not_both(sink, numbering, choice, node, count);
    }
}

// Each fan-in of a gate is exactly one earlier node.
fn fan_ins_of_gate<S: ClauseSink>(sink: &mut S, numbering: &Numbering, gate: u8)
    requires { gate ≤ 12 }
    ensures { S.took sink.old (numbered (numbered_by numbering.now) (each_fan_in (λ c. exactly_one gate (Var_S gate c)))) sink.new }
{
    for fan_in in 1..4 {
        one_node(sink, numbering, Choice::FanIn { gate, fan_in }, gate);
    }
}

// Group 1: each fan-in of each gate is exactly one earlier node.
pub(crate) fn fan_ins_chosen<S: ClauseSink>(sink: &mut S, numbering: &Numbering)
    ensures { S.took sink.old (numbered (numbered_by numbering.now) (group_1 numbering.now.inputs numbering.now.gates)) sink.new }
{
    for gate in numbering.inputs + 1..numbering.inputs + 1 + numbering.gates {
        fan_ins_of_gate(sink, numbering, gate);
    }
}

// Group 4: the output is exactly one node.
pub(crate) fn output_chosen<S: ClauseSink>(sink: &mut S, numbering: &Numbering)
    ensures { S.took sink.old (numbered (numbered_by numbering.now) (group_4 numbering.now.inputs numbering.now.gates)) sink.new }
{
    one_node(
        sink,
        numbering,
        Choice::Output,
        numbering.inputs + 1 + numbering.gates,
    );
}
