// Networks carried to the class of a question, and back.
ghost use Rattle.std.specs.Prelude.{◌≡◌, IfOk};
ghost use Rattle.mig.specs.Networks.{net_of, size};
ghost use Rattle.mig.specs.Normal.{Normal};
ghost use Rattle.mig.specs.Questions.{Meets};
ghost use Rattle.mig.specs.Rules.{refused_by, or_else, question_refusal, network_refusal, examine_refusal};
ghost use Rattle.filing.specs.Filing.{key_of, class_question, CarriedIn, CarriedOut};

use crate::filed::Filed;
use crate::key::Key;
use carrying::{carry_network, cut_network, raise_network};
use checks::check_question;
use classes::way_to_representative;
use examine::examine;
use mig::{Network, Question, Refusal};
use normalise::normalise;

// A network that meets the question, as one over four inputs that meets the question of its class: raised, carried to the
// representative and normalised. Which way it is carried is left open.
pub fn carry_in(question: &Question, network: &Network) -> Result<Filed, Refusal>
    ensures refused_as_examined { refused_by result ≡ examine_refusal question.now network.now }
    ensures under_the_key_of_the_question { IfOk result (λ f. f.key ≡ key_of question.now) }
    ensures carried_by_a_way { IfOk result (λ f. CarriedIn question.now (net_of network.now) f.network) }
    ensures keeps_the_number_of_gates { IfOk result (λ f. f.network.count ≡ size (net_of network.now)) }
{
    examine(question, network)?;
    let raised = raise_network(question.inputs, network)?;
    let way = way_to_representative(question.inputs, question.table)?;
    let carried = carry_network(way, &raised)?;
    Ok(Filed {
        key: Key::of(question)?,
        network: normalise(4, &carried)?,
    })
}

// A network over four inputs, carried from the class of a question back to the question: its inputs above those of the
// question become the constant, and it is normalised. Which way it is carried is left open.
pub fn carry_out(question: &Question, network: &Network) -> Result<Network, Refusal>
    ensures refused_by_the_rule { refused_by result ≡ or_else (question_refusal question.now) (network_refusal 4 network.now) }
    ensures carried_by_a_way { IfOk result (λ m. CarriedOut question.now (net_of network.now) m) }
    ensures meets_the_question_if_it_meets_that_of_the_class { IfOk result (λ m. Meets (class_question question.now) (net_of network.now) → Meets question.now (net_of m)) }
    ensures is_normal { IfOk result (λ m. Normal (net_of m)) }
    ensures keeps_the_number_of_gates { IfOk result (λ m. m.count ≡ size (net_of network.now)) }
{
    check_question(question)?;
    let way = way_to_representative(question.inputs, question.table)?;
    let carried = carry_network(way.inverse(), network)?;
    let cut = cut_network(question.inputs, &carried)?;
    normalise(question.inputs, &cut)
}
