// Networks over four inputs carried by a way.
ghost use Rattle.std.specs.Prelude.{◌≡◌, ℕ, ◌^◌, ◌<◌, ◌↔◌, IfOk};
ghost use Rattle.mig.specs.declared.question.Limits.{Limits};
ghost use Rattle.mig.specs.Networks.{net_of};
ghost use Rattle.mig.specs.Questions.{question_of, Meets};
ghost use Rattle.class_laws.specs.Renaming.{SameGates};
ghost use Rattle.class_laws.specs.Ways.{carried_code, carry_table};
ghost use Rattle.classes.specs.Reach.{way_of};
ghost use Rattle.carrying.specs.Answers.{carried_answer};

use crate::renaming::renamed;
use classes::Way;
use mig::{Network, Refusal};

// The code that takes the place of a node by a way.
fn carried_code(way: Way, node: u8) -> u8
    requires { node < 12 }
    ensures { result ≡ carried_code way.order way.mask node }
{
    match node {
        1..=4 => {
            let input = node - 1;
            2 * (way.source(input) + 1) + (way.mask >> input) % 2
        }
        _ => 2 * node,
    }
}

// The network over four inputs with its inputs permuted and complemented, and its output perhaps complemented.
pub fn carry_network(way: Way, network: &Network) -> Result<Network, Refusal>
    ensures answer { result ≡ carried_answer (way_of way) network.now }
    ensures meets_the_carried_question_exactly_when_it_meets_the_question { IfOk result (λ m. (table : ℕ) (limits : Limits) → table < 2 ^ 16 → Meets (question_of 4 table limits) (net_of network.now) ↔ Meets (question_of 4 (carry_table (way_of way) table) limits) (net_of m)) }
    ensures keeps_gates_levels_and_fan_outs { IfOk result (λ m. SameGates 4 4 (net_of network.now) (net_of m)) }
{
    renamed(4, network, way.flipped, |node| carried_code(way, node))
}
