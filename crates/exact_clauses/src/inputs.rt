// Symmetry clauses of the inputs: those in which the table is symmetric are named in their order. Inputs are counted from 0 here.
ghost use Rattle.std.specs.Prelude.{◌≡◌, suc, ◌+◌, ◌-◌, ◌<◌, ◌≤◌, [], ◌∷◌, map, cond};
ghost use Rattle.cnf.specs.Variables.{each};
ghost use Rattle.cnf.specs.Numbers.{numbered, numbered_literal};
ghost use Rattle.clauses.specs.Numbering.{numbered_by};
ghost use Rattle.symmetry_laws.specs.Inputs.{symmetric_in};
ghost use Rattle.symmetry_laws.specs.Symmetry.{named_up_to, in_order};
ghost use Rattle.symmetry_laws.specs.Symmetry.{inputs_ordered as group_h};

use crate::naming::write_naming;
use crate::symmetry::symmetric;
use clauses::{Numbering, neg};
use cnf::ClauseSink;

// If a fan-in of a gate is the later input, the gate or one before it names the earlier.
fn named_up_to<S: ClauseSink>(
    sink: &mut S,
    numbering: &Numbering,
    first: u8,
    second: u8,
    gate: u8,
    fan_in: u8,
)
    requires gate { (suc numbering.now.inputs ≤ gate) × (gate ≤ numbering.now.inputs + numbering.now.gates) }
    requires inputs { (first < 4) × (second < 4) }
    ensures { S.took sink.old (map (numbered_literal (numbered_by numbering.now)) (named_up_to numbering.now.inputs first second gate fan_in) ∷ []) sink.new }
{
    let mut literals = [neg(numbering.fan_in_is(gate, fan_in, second + 1)); 22];
    let count = write_naming(
        &mut literals,
        1,
        numbering,
        first + 1,
        numbering.inputs + 1,
        gate + 1,
    );
    sink.take(&literals[..count]);
}

// A gate does not name the later of two inputs before the earlier is named.
fn gate_in_order<S: ClauseSink>(
    sink: &mut S,
    numbering: &Numbering,
    first: u8,
    second: u8,
    gate: u8,
)
    requires gate { (suc numbering.now.inputs ≤ gate) × (gate ≤ numbering.now.inputs + numbering.now.gates) }
    requires inputs { (first < 4) × (second < 4) }
    ensures { S.took sink.old (numbered (numbered_by numbering.now) (named_up_to numbering.now.inputs first second gate 1
        ∷ named_up_to numbering.now.inputs first second gate 2 ∷ named_up_to numbering.now.inputs first second gate 3 ∷ [])) sink.new }
{
    named_up_to(sink, numbering, first, second, gate, 1);
    named_up_to(sink, numbering, first, second, gate, 2);
    named_up_to(sink, numbering, first, second, gate, 3);
}

// No gate names the later of two inputs before the earlier is named.
fn in_order<S: ClauseSink>(sink: &mut S, numbering: &Numbering, first: u8, second: u8)
    requires inputs { (first < 4) × (second < 4) }
    ensures { S.took sink.old (numbered (numbered_by numbering.now) (in_order numbering.now.inputs first second numbering.now.gates)) sink.new }
{
    for gate in numbering.inputs + 1..numbering.inputs + 1 + numbering.gates {
        gate_in_order(sink, numbering, first, second, gate);
    }
}

// Each input behind an input, if the table is symmetric in both, is named in order.
fn later_in_order<S: ClauseSink>(sink: &mut S, numbering: &Numbering, table: u32, first: u8)
    requires input { first < numbering.now.inputs }
    ensures { S.took sink.old (numbered (numbered_by numbering.now) (each (suc first) (numbering.now.inputs - suc first) (λ b.
        cond (symmetric_in numbering.now.inputs table first b) (in_order numbering.now.inputs first b numbering.now.gates) []))) sink.new }
{
    for second in first + 1..numbering.inputs {
        if symmetric(numbering.inputs, table, first, second) {
            in_order(sink, numbering, first, second);
        }
    }
}

// Group h: inputs in which the table is symmetric are named in their order.
pub(crate) fn inputs_ordered<S: ClauseSink>(sink: &mut S, numbering: &Numbering, table: u32)
    ensures { S.took sink.old (numbered (numbered_by numbering.now) (group_h numbering.now.inputs table numbering.now.gates)) sink.new }
{
    for first in 0..numbering.inputs {
        later_in_order(sink, numbering, table, first);
    }
}
