// The literals that say that gates name a node.
ghost use Rattle.std.specs.Prelude.{◌≡◌, ◌+◌, ◌-◌, ◌*◌, ◌≤◌, ◌++◌, length, take, map};
ghost use Rattle.cnf.specs.Variables.{each};
ghost use Rattle.cnf.specs.Numbers.{numbered_literal};
ghost use Rattle.clauses.specs.Numbering.{numbered_by};
ghost use Rattle.symmetry_laws.specs.Symmetry.{naming};

use clauses::{Numbering, pos};
use cnf::Literal;

// Writes the literals that say that the gates from `from` up to `to` name a node, three a gate, from a place on, and gives the
// place behind them.
pub(crate) fn write_naming(
    literals: &mut [Literal],
    start: usize,
    numbering: &Numbering,
    node: u8,
    from: u8,
    to: u8,
) -> usize
    requires in_order { from ≤ to }
    requires room { start + 3 * (to - from) ≤ length literals.old }
    ensures within { result ≤ length literals.new }
    ensures written { take result literals.new ≡ take start literals.old ++ map (numbered_literal (numbered_by numbering.now)) (each from (to - from) (naming node)) }
{
    let mut count = start;
    for gate in from..to {
        literals[count] = pos(numbering.fan_in_is(gate, 1, node));
        literals[count + 1] = pos(numbering.fan_in_is(gate, 2, node));
        literals[count + 2] = pos(numbering.fan_in_is(gate, 3, node));
        count += 3;
    }
    count
}
