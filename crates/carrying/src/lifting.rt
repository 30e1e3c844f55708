// Networks over fewer inputs than four, and over four.
ghost use Rattle.std.specs.Prelude.{◌≡◌, ℕ, ◌↔◌, IfOk};
ghost use Rattle.mig.specs.declared.question.Limits.{Limits};
ghost use Rattle.mig.specs.Networks.{Net, net_of};
ghost use Rattle.mig.specs.Questions.{question_of, Meets};
ghost use Rattle.class_laws.specs.Renaming.{SameGates};
ghost use Rattle.class_laws.specs.Lifting.{lift_table, raise_net};
ghost use Rattle.carrying.specs.Answers.{raised_answer, cut_answer};

use crate::renaming::renamed;
use checks::check_inputs;
use mig::{Network, Refusal};

// The network over `inputs` inputs as one over four: its gates are renumbered.
pub fn raise_network(inputs: u8, network: &Network) -> Result<Network, Refusal>
    ensures answer { result ≡ raised_answer inputs network.now }
    ensures meets_the_lifted_question_exactly_when_it_meets_the_question { IfOk result (λ m. (table : ℕ) (limits : Limits) → Meets (question_of inputs table limits) (net_of network.now) ↔ Meets (question_of 4 (lift_table 4 inputs table) limits) (net_of m)) }
    ensures keeps_gates_levels_and_fan_outs { IfOk result (λ m. SameGates inputs 4 (net_of network.now) (net_of m)) }
{
    let above = 4u8.saturating_sub(inputs);
    renamed(inputs, network, false, |node| {
        if node <= inputs {
            2 * node
        } else {
            2 * (node + above)
        }
    })
}

// The network over four inputs as one over `inputs`: inputs above become the constant and keep their complements, and
// its gates are renumbered.
pub fn cut_network(inputs: u8, network: &Network) -> Result<Network, Refusal>
    ensures answer { result ≡ cut_answer inputs network.now }
    ensures meets_the_question_if_it_meets_the_lifted_one { IfOk result (λ m. (table : ℕ) (limits : Limits) → Meets (question_of 4 (lift_table 4 inputs table) limits) (net_of network.now) → Meets (question_of inputs table limits) (net_of m)) }
    ensures keeps_gates_levels_and_fan_outs { IfOk result (λ m. SameGates 4 inputs (net_of network.now) (net_of m)) }
    ensures raised_networks_come_back { IfOk result (λ m. (net : Net) → net_of network.now ≡ raise_net 4 inputs net → net_of m ≡ net) }
{
    check_inputs(inputs)?;
    renamed(4, network, false, |node| {
        if node <= inputs {
            2 * node
        } else if node <= 4 {
            0
        } else {
            2 * (node - (4 - inputs))
        }
    })
}
