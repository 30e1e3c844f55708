// Group 5: the output computes the table.
ghost use Rattle.std.specs.Prelude.{◌≡◌, ◌+◌, ◌<◌, ◌≤◌, cond, nat_le};
ghost use Rattle.mig.specs.Tables.{bit_at};
ghost use Rattle.cnf.specs.Variables.{each, each_row};
ghost use Rattle.cnf.specs.Clauses.{given, output_given, output_gate};
ghost use Rattle.cnf.specs.Clauses.{output_values as group_5};
ghost use Rattle.cnf.specs.Numbers.{numbered};
ghost use Rattle.clauses.specs.Numbering.{numbered_by};

use crate::literals::{neg, pos};
use crate::numbering::Numbering;
use crate::values::given_value;
use cnf::ClauseSink;

// If the output is the constant or an input, it is complemented exactly where that node's value is not the table's.
fn given_output<S: ClauseSink>(
    sink: &mut S,
    numbering: &Numbering,
    node: u8,
    value: bool,
    wanted: bool,
)
    ensures { S.took sink.old (numbered (numbered_by numbering.now) (output_given value wanted node)) sink.new }
{
    let is_node = numbering.output_is(node);
    let complemented = numbering.output_complemented();
    if value == wanted {
        sink.take(&[neg(is_node), neg(complemented)]);
    } else {
        sink.take(&[neg(is_node), pos(complemented)]);
    }
}

// If the output is a gate, its value in the row, complemented or not, is the table's.
fn gate_output<S: ClauseSink>(sink: &mut S, numbering: &Numbering, node: u8, row: u8, wanted: bool)
    ensures { S.took sink.old (numbered (numbered_by numbering.now) (output_gate wanted node row)) sink.new }
{
    let is_node = numbering.output_is(node);
    let complemented = numbering.output_complemented();
    let value = numbering.gate_value(node, row);
    if wanted {
        sink.take(&[neg(is_node), pos(value), pos(complemented)]);
        sink.take(&[neg(is_node), neg(value), neg(complemented)]);
    } else {
        sink.take(&[neg(is_node), neg(value), pos(complemented)]);
        sink.take(&[neg(is_node), pos(value), neg(complemented)]);
    }
}

// If the output is a node, it computes the table's bit in the row.
fn output_row<S: ClauseSink>(sink: &mut S, numbering: &Numbering, table: u32, node: u8, row: u8)
    requires { row < 32 }
    ensures { S.took sink.old (numbered (numbered_by numbering.now)
        (cond (nat_le node numbering.now.inputs) (output_given (given numbering.now.inputs row node) (bit_at table row) node) (output_gate (bit_at table row) node row))) sink.new }
{
    let wanted = (table >> row) % 2 == 1;
    if node <= numbering.inputs {
        let value = given_value(numbering.inputs, node, row);
        given_output(sink, numbering, node, value, wanted);
    } else {
        gate_output(sink, numbering, node, row, wanted);
    }
}

// If the output is a node, it computes the table in each row.
fn output_rows<S: ClauseSink>(sink: &mut S, numbering: &Numbering, table: u32, node: u8)
    ensures { S.took sink.old (numbered (numbered_by numbering.now) (each_row numbering.now.inputs (λ t.
        cond (nat_le node numbering.now.inputs) (output_given (given numbering.now.inputs t node) (bit_at table t) node) (output_gate (bit_at table t) node t)))) sink.new }
{
    for row in 0..numbering.rows {
        output_row(sink, numbering, table, node, row);
    }
}

// Group 5: the output, whichever node it is, computes the table.
pub(crate) fn output_values<S: ClauseSink>(sink: &mut S, numbering: &Numbering, table: u32)
    ensures { S.took sink.old (numbered (numbered_by numbering.now) (group_5 numbering.now.inputs table numbering.now.gates)) sink.new }
{
    for node in 0..numbering.inputs + 1 + numbering.gates {
        output_rows(sink, numbering, table, node);
    }
}
