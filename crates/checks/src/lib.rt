// The refusals that many calls share: those of a question, and those of a malformed network.
#![tactic(auto)]

ghost use Rattle.std.specs.Prelude.{◌≡◌, ◌+◌, ◌^◌, ◌<◌, ◌≤◌, length, is_ok, Decides, OnOk};
ghost use Rattle.mig.specs.Networks.{net_of, size, Formed};
ghost use Rattle.mig.specs.Questions.{Valid};
ghost use Rattle.mig.specs.Rules.{inputs_refusal, table_refusal, question_refusal, form_refusal, unless_refused, is_below, is_ordered};

use mig::{Gate, Network, Question, Refusal};

// The refusal of a number of inputs, if there is one.
pub fn check_inputs(inputs: u8) -> Result<(), Refusal>
    ensures answer { result ≡ unless_refused (inputs_refusal inputs) tt }
    ensures accepted_up_to_four { Decides (is_ok result) (inputs ≤ 4) }
{
    if inputs > 4 {
        return Err(Refusal::InputsAboveFour);
    }
    Ok(())
}

// How many tables there are over some inputs: the bits of each stand below the number of rows.
pub fn table_count(inputs: u8) -> Result<u32, Refusal>
    ensures { result ≡ unless_refused (inputs_refusal inputs) (2 ^ (2 ^ inputs)) }
{
    check_inputs(inputs)?;
    let rows = 1u32 << inputs;
    Ok(1 << rows)
}

// The refusal of a number of inputs and a table, if there is one.
// The two stay two parameters of a call: a question holds them side by side, and a pair would be made anew each time.
pub fn check_table(inputs: u8, table: u32) -> Result<(), Refusal>
    ensures answer { result ≡ unless_refused (table_refusal inputs table) tt }
    ensures accepted_exactly_when_below { Decides (is_ok result) ((inputs ≤ 4) × (table < 2 ^ (2 ^ inputs))) }
{
    if table >= table_count(inputs)? {
        return Err(Refusal::TableBitBeyondRows);
    }
    Ok(())
}

// The refusal of a question, if there is one.
pub fn check_question(question: &Question) -> Result<(), Refusal>
    ensures answer { result ≡ unless_refused (question_refusal question.now) tt }
    ensures accepted_exactly_when_valid { Decides (is_ok result) (Valid question.now) }
{
    check_table(question.inputs, question.table)?;
    if question.limits.depth > 7 {
        return Err(Refusal::DepthLimitAboveSeven);
    }
    if question.limits.fan_out == 0 || question.limits.fan_out > 19 {
        return Err(Refusal::FanOutLimitOutOfRange);
    }
    Ok(())
}

// Whether each fan-in of the gate names a node below `nodes`.
fn names_below(gate: &Gate, nodes: u8) -> bool
    ensures { result ≡ is_below nodes gate.now }
{
    gate.first / 2 < nodes && gate.second / 2 < nodes && gate.third / 2 < nodes
}

// Whether each gate names earlier nodes only, where `before` nodes stand before the first.
// A recursion, as the definition is one: over the gates zipped with `before..` the proof of `all` did not close.
fn gates_ordered(before: u8, gates: &[Gate]) -> bool
    requires { before + length gates.now < 256 }
    ensures { result ≡ is_ordered before gates.now }
{
    match gates.split_first() {
        None => true,
        Some((gate, later)) => names_below(gate, before) && gates_ordered(before + 1, later),
    }
}

// The refusal of a number of inputs and a network, if there is one.
// The two stay two parameters of a call: a network is read over several numbers of inputs, as when it is cut.
pub fn check_network(inputs: u8, network: &Network) -> Result<(), Refusal>
    ensures answer { result ≡ unless_refused (form_refusal inputs network.now) tt }
    ensures accepted_exactly_when_formed { Decides (is_ok result) ((inputs ≤ 4) × (network.now.count ≤ 7) × Formed inputs (net_of network.now)) }
    ensures count_is_size { OnOk result (size (net_of network.now) ≡ network.now.count) }
{
    check_inputs(inputs)?;
    if network.count > 7
        || !gates_ordered(inputs + 1, network.gates())
        || network.output / 2 >= inputs + 1 + network.count
    {
        return Err(Refusal::MalformedNetwork);
    }
    Ok(())
}
