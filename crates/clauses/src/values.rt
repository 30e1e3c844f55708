// Groups 2 and 3: the values of the fan-ins and of the gates in each row.
ghost use Rattle.std.specs.Prelude.{◌≡◌, ◌+◌, ◌<◌, ◌≤◌, cond, nat_le};
ghost use Rattle.cnf.specs.Variables.{each, each_fan_in, each_row};
ghost use Rattle.cnf.specs.Clauses.{given, fan_in_given, fan_in_gate, gate_majority};
ghost use Rattle.cnf.specs.Clauses.{fan_in_values as group_2, gate_values as group_3};
ghost use Rattle.cnf.specs.Numbers.{numbered};
ghost use Rattle.clauses.specs.Numbering.{numbered_by};
ghost use Rattle.clauses.specs.Pairs.{pair_clauses};

use crate::literals::{neg, pos};
use crate::numbering::Numbering;
use cnf::ClauseSink;

// The value of the constant or an input in a row.
pub(crate) fn given_value(inputs: u8, node: u8, row: u8) -> bool
    requires { (node ≤ inputs) × (inputs ≤ 4) }
    ensures { result ≡ given inputs row node }
{
    node > 0 && (row >> (node - 1)) % 2 == 1
}

// If a fan-in is the constant or an input, its value in the row is that node's, complemented or not.
fn given_fan_in<S: ClauseSink>(
    sink: &mut S,
    numbering: &Numbering,
    gate: u8,
    fan_in: u8,
    node: u8,
    row: u8,
)
    requires { node ≤ numbering.now.inputs }
    ensures { S.took sink.old (numbered (numbered_by numbering.now) (fan_in_given (given numbering.now.inputs row node) gate fan_in node row)) sink.new }
{
    let is_node = numbering.fan_in_is(gate, fan_in, node);
    let value = numbering.fan_in_value(gate, fan_in, row);
    let complemented = numbering.fan_in_complemented(gate, fan_in);
    if given_value(numbering.inputs, node, row) {
        sink.take(&[neg(is_node), pos(value), pos(complemented)]);
        sink.take(&[neg(is_node), neg(value), neg(complemented)]);
    } else {
        sink.take(&[neg(is_node), neg(value), pos(complemented)]);
        sink.take(&[neg(is_node), pos(value), neg(complemented)]);
    }
}

// If a fan-in is a gate, its value in the row is that gate's, complemented or not.
fn gate_fan_in<S: ClauseSink>(
    sink: &mut S,
    numbering: &Numbering,
    gate: u8,
    fan_in: u8,
    node: u8,
    row: u8,
)
    ensures { S.took sink.old (numbered (numbered_by numbering.now) (fan_in_gate gate fan_in node row)) sink.new }
{
    let is_node = numbering.fan_in_is(gate, fan_in, node);
    let value = numbering.fan_in_value(gate, fan_in, row);
    let complemented = numbering.fan_in_complemented(gate, fan_in);
    let node_value = numbering.gate_value(node, row);
    sink.take(&[neg(is_node), neg(value), pos(node_value), pos(complemented)]);
    sink.take(&[neg(is_node), pos(value), neg(node_value), pos(complemented)]);
    sink.take(&[neg(is_node), pos(value), pos(node_value), neg(complemented)]);
    sink.take(&[neg(is_node), neg(value), neg(node_value), neg(complemented)]);
}

// If a fan-in is a node, its value in the row is that node's, complemented or not.
fn fan_in_row<S: ClauseSink>(
    sink: &mut S,
    numbering: &Numbering,
    gate: u8,
    fan_in: u8,
    node: u8,
    row: u8,
)
    ensures { S.took sink.old (numbered (numbered_by numbering.now)
        (cond (nat_le node numbering.now.inputs) (fan_in_given (given numbering.now.inputs row node) gate fan_in node row) (fan_in_gate gate fan_in node row))) sink.new }
{
    if node <= numbering.inputs {
        given_fan_in(sink, numbering, gate, fan_in, node, row);
    } else {
        gate_fan_in(sink, numbering, gate, fan_in, node, row);
    }
}

// If a fan-in is a node, its value in each row is that node's, complemented or not.
fn fan_in_rows<S: ClauseSink>(sink: &mut S, numbering: &Numbering, gate: u8, fan_in: u8, node: u8)
    ensures { S.took sink.old (numbered (numbered_by numbering.now) (each_row numbering.now.inputs (λ t.
        cond (nat_le node numbering.now.inputs) (fan_in_given (given numbering.now.inputs t node) gate fan_in node t) (fan_in_gate gate fan_in node t)))) sink.new }
{
    for row in 0..numbering.rows {
        fan_in_row(sink, numbering, gate, fan_in, node, row);
    }
}

// The value of a fan-in, whichever earlier node it is.
fn fan_in_nodes<S: ClauseSink>(sink: &mut S, numbering: &Numbering, gate: u8, fan_in: u8)
    ensures { S.took sink.old (numbered (numbered_by numbering.now) (each 0 gate (λ j. each_row numbering.now.inputs (λ t.
        cond (nat_le j numbering.now.inputs) (fan_in_given (given numbering.now.inputs t j) gate fan_in j t) (fan_in_gate gate fan_in j t))))) sink.new }
{
    for node in 0..gate {
        fan_in_rows(sink, numbering, gate, fan_in, node);
    }
}

// The values of the fan-ins of a gate.
fn fan_ins_of_gate<S: ClauseSink>(sink: &mut S, numbering: &Numbering, gate: u8)
    ensures { S.took sink.old (numbered (numbered_by numbering.now) (each_fan_in (λ c. each 0 gate (λ j. each_row numbering.now.inputs (λ t.
        cond (nat_le j numbering.now.inputs) (fan_in_given (given numbering.now.inputs t j) gate c j t) (fan_in_gate gate c j t)))))) sink.new }
{
    for fan_in in 1..4 {
        fan_in_nodes(sink, numbering, gate, fan_in);
    }
}

// Group 2: the values of the fan-ins.
pub(crate) fn fan_in_values<S: ClauseSink>(sink: &mut S, numbering: &Numbering)
    ensures { S.took sink.old (numbered (numbered_by numbering.now) (group_2 numbering.now.inputs numbering.now.gates)) sink.new }
{
    for gate in numbering.inputs + 1..numbering.inputs + 1 + numbering.gates {
        fan_ins_of_gate(sink, numbering, gate);
    }
}

// Two fan-ins of a gate that agree in a row give its value.
fn pair_agrees<S: ClauseSink>(sink: &mut S, first: u32, second: u32, value: u32)
    ensures { S.took sink.old (pair_clauses first second value) sink.new }
{
    sink.take(&[neg(first), neg(second), pos(value)]);
    sink.take(&[pos(first), pos(second), neg(value)]);
}

// The value of a gate in a row: the majority of its fan-ins.
fn gate_row<S: ClauseSink>(sink: &mut S, numbering: &Numbering, gate: u8, row: u8)
    ensures { S.took sink.old (numbered (numbered_by numbering.now) (gate_majority gate row)) sink.new }
{
    let first = numbering.fan_in_value(gate, 1, row);
    let second = numbering.fan_in_value(gate, 2, row);
    let third = numbering.fan_in_value(gate, 3, row);
    let value = numbering.gate_value(gate, row);
    pair_agrees(sink, first, second, value);
    pair_agrees(sink, first, third, value);
    pair_agrees(sink, second, third, value);
}

// The value of a gate in each row.
fn gate_rows<S: ClauseSink>(sink: &mut S, numbering: &Numbering, gate: u8)
    ensures { S.took sink.old (numbered (numbered_by numbering.now) (each_row numbering.now.inputs (λ t. gate_majority gate t))) sink.new }
{
    for row in 0..numbering.rows {
        gate_row(sink, numbering, gate, row);
    }
}

// Group 3: the values of the gates.
pub(crate) fn gate_values<S: ClauseSink>(sink: &mut S, numbering: &Numbering)
    ensures { S.took sink.old (numbered (numbered_by numbering.now) (group_3 numbering.now.inputs numbering.now.gates)) sink.new }
{
    for gate in numbering.inputs + 1..numbering.inputs + 1 + numbering.gates {
        gate_rows(sink, numbering, gate);
    }
}
