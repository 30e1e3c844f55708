// Group 7: the fan-outs of the gates, and the fan-out limit.
ghost use Rattle.std.specs.Prelude.{◌≡◌, suc, ◌+◌, ◌-◌, ◌<◌, ◌≤◌, [], ◌∷◌, ◌++◌, length, cond};
ghost use Rattle.cnf.specs.Variables.{K, pos, neg, each, uses_of, outnumber};
ghost use Rattle.cnf.specs.Clauses.{counter, counter_step};
ghost use Rattle.cnf.specs.Clauses.{fan_outs_limited as group_7};
ghost use Rattle.cnf.specs.Numbers.{numbered};
ghost use Rattle.clauses.specs.Numbering.{numbered_by};
ghost use Rattle.clauses.specs.Uses.{use_at, IsUse};

use crate::literals::{neg, pos};
use crate::numbering::Numbering;
use cnf::ClauseSink;

// A use of a gate: which of its uses it is, counted from 1, and the number of its variable. The uses before it are
// counted by variables K from the number `first` on.
#[derive(Clone, Copy)]
struct Use {
    gate: u8,
    first: u32,
    place: u8,
    variable: u32,
}

// The number of the variable of a use of a gate, counted from 1.
fn use_variable(numbering: &Numbering, gate: u8, place: u8) -> u32
    requires { (numbering.now.inputs < gate) × (1 ≤ place) × (place ≤ length (uses_of numbering.now.inputs numbering.now.gates gate)) }
    ensures { result ≡ numbered_by numbering.now (use_at numbering.now gate place) }
{
    let before = place - 1;
    if place == numbering.uses(gate) {
        numbering.output_is(gate)
    } else {
        numbering.fan_in_is(gate + 1 + before / 3, before % 3 + 1, gate)
    }
}

// What was counted stays counted.
fn count_stays<S: ClauseSink>(sink: &mut S, numbering: &Numbering, taken: Use)
    requires { IsUse numbering.now taken }
    ensures { S.took sink.old (numbered (numbered_by numbering.now) (each 1 numbering.now.fan_out (λ q.
        (neg (K taken.gate (taken.place - 1) q) ∷ pos (K taken.gate taken.place q) ∷ []) ∷ []))) sink.new }
{
    for count in 1..numbering.fan_out + 1 {
        sink.take(&[
            neg(numbering.uses_at_least(taken.first, taken.place - 1, count)),
            pos(numbering.uses_at_least(taken.first, taken.place, count)),
        ]);
    }
}

// A use that holds counts one more.
fn count_rises<S: ClauseSink>(sink: &mut S, numbering: &Numbering, taken: Use)
    requires { IsUse numbering.now taken }
    ensures { S.took sink.old (numbered (numbered_by numbering.now) (each 1 (numbering.now.fan_out - 1) (λ q.
        (neg (use_at numbering.now taken.gate taken.place) ∷ neg (K taken.gate (taken.place - 1) q) ∷ pos (K taken.gate taken.place (q + 1)) ∷ []) ∷ []))) sink.new }
{
    for count in 1..numbering.fan_out {
        sink.take(&[
            neg(taken.variable),
            neg(numbering.uses_at_least(taken.first, taken.place - 1, count)),
            pos(numbering.uses_at_least(taken.first, taken.place, count + 1)),
        ]);
    }
}

// How the count goes on from the use before, and that no use exceeds the limit.
fn count_goes_on<S: ClauseSink>(sink: &mut S, numbering: &Numbering, taken: Use)
    requires { IsUse numbering.now taken }
    ensures { S.took sink.old (numbered (numbered_by numbering.now) (counter_step numbering.now.fan_out taken.gate (use_at numbering.now taken.gate taken.place) taken.place)) sink.new }
{
    count_stays(sink, numbering, taken);
    count_rises(sink, numbering, taken);
    sink.take(&[
        neg(taken.variable),
        neg(numbering.uses_at_least(taken.first, taken.place - 1, numbering.fan_out)),
    ]);
}

// Counts one use of a gate.
fn count_use<S: ClauseSink>(sink: &mut S, numbering: &Numbering, taken: Use)
    requires { IsUse numbering.now taken }
    ensures { S.took sink.old (numbered (numbered_by numbering.now) (counter numbering.now.fan_out taken.gate (use_at numbering.now taken.gate taken.place) taken.place)) sink.new }
{
    sink.take(&[
        neg(taken.variable),
        pos(numbering.uses_at_least(taken.first, taken.place, 1)),
    ]);
    if taken.place > 1 {
        count_goes_on(sink, numbering, taken);
    }
}

// Counts the uses of a gate.
fn count_uses<S: ClauseSink>(sink: &mut S, numbering: &Numbering, gate: u8)
    requires { numbering.now.inputs < gate }
    ensures { S.took sink.old (numbered (numbered_by numbering.now) (each 1 (length (uses_of numbering.now.inputs numbering.now.gates gate)) (λ k.
        counter numbering.now.fan_out gate (use_at numbering.now gate k) k))) sink.new }
{
    let first = numbering.first_counter(gate);
    for place in 1..numbering.uses(gate) + 1 {
        let variable = use_variable(numbering, gate, place);
        let taken = Use {
            gate,
            first,
            place,
            variable,
        };
        count_use(sink, numbering, taken);
    }
}

// The fan-out of a gate, if its uses outnumber the fan-out limit.
fn fan_out_of_gate<S: ClauseSink>(sink: &mut S, numbering: &Numbering, gate: u8)
    requires { numbering.now.inputs < gate }
    ensures { S.took sink.old (numbered (numbered_by numbering.now)
        (cond (outnumber numbering.now.inputs numbering.now.fan_out numbering.now.gates gate)
        (each 1 (length (uses_of numbering.now.inputs numbering.now.gates gate)) (λ k. counter numbering.now.fan_out gate (use_at numbering.now gate k) k))
        [])) sink.new }
{
    if numbering.uses(gate) > numbering.fan_out {
        count_uses(sink, numbering, gate);
    }
}

// Group 7: the fan-outs of the gates whose uses outnumber the fan-out limit.
pub(crate) fn fan_outs_limited<S: ClauseSink>(sink: &mut S, numbering: &Numbering)
    ensures { S.took sink.old (numbered (numbered_by numbering.now) (group_7 numbering.now.inputs numbering.now.fan_out numbering.now.gates)) sink.new }
{
    for gate in numbering.inputs + 1..numbering.inputs + 1 + numbering.gates {
        fan_out_of_gate(sink, numbering, gate);
    }
}
