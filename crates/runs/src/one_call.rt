// One call.
ghost use Rattle.std.specs.Prelude.{◌≡◌, ℕ, List, false, length, IfOk, OnErr};
ghost use Rattle.mig.specs.Rules.{refused_by};
ghost use Rattle.filing.specs.Filing.{key_of};
ghost use Rattle.entries.specs.Table.{kept_or_new};
ghost use Rattle.entries.specs.Rows.{table};
ghost use Rattle.collection_laws.specs.Calls.{look_up_refusal, AnswersLookUp};
ghost use Rattle.collection_laws.specs.declared.call.Call.TheVariants.{Order as TheOrder};
ghost use Rattle.collection_laws.specs.Runs.{is_order, lent, Step};
ghost use Rattle.collection.specs.State.{state};

use collection::Collection;
use collection_laws::{Answer, Call, LookedUp, Ordered};
use mig::{Network, Question, Refusal};
use search::Search;
use transfer::{export, load};

// An order, with a place of its own for the network.
fn order<S: Search>(
    collection: &mut Collection<S>,
    question: &Question,
    gates: u8,
    words: &mut [u32],
) -> Result<Answer, Refusal>
    ensures reach_and_need_stay { (S.reach collection.new.search ≡ S.reach collection.old.search) × (S.need collection.new.search ≡ S.need collection.old.search) }
    ensures refused_alters_nothing { OnErr result ((collection.new ≡ collection.old) × (words.new ≡ words.old)) }
    ensures ordered_by_the_rule { let s = lent (S.reach collection.old.search) (S.need collection.old.search) (length words.old) in (buffer : List ℕ) →
        Step s (state (S.count collection.old.search) collection.old.entries buffer) (TheOrder question.now gates) result
        (state (S.count collection.new.search) collection.new.entries buffer) }
{
    let mut network = Network::default();
    let Ordered {
        given,
        lower,
        asked,
    } = collection.order(question, gates, &mut network, words)?;
    Ok(if given {
        Answer::Given {
            network,
            lower,
            asked,
        }
    } else {
        Answer::NoneWithin { lower, asked }
    })
}

// A look-up, with a place of its own for the network.
fn look_up<S>(collection: &Collection<S>, question: &Question) -> Result<Answer, Refusal>
    ensures refused_by_the_rule { refused_by result ≡ look_up_refusal question.now (table collection.now.entries) }
    ensures answered_by_the_rule { IfOk result (λ answer. let kept = kept_or_new (table collection.now.entries) (key_of question.now) in
        AnswersLookUp question.now kept.lower kept.network answer) }
{
    let mut network = Network::default();
    let LookedUp { lower, upper } = collection.look_up(question, &mut network)?;
    Ok(Answer::Known {
        lower,
        kept: upper.map(|gates| (gates, network)),
    })
}

// Performs a call. Its work words and the buffer of exports are lent.
pub fn perform<S: Search>(
    collection: &mut Collection<S>,
    call: &Call,
    words: &mut [u32],
    buffer: &mut [u8],
) -> Result<Answer, Refusal>
    ensures reach_and_need_stay { (S.reach collection.new.search ≡ S.reach collection.old.search) × (S.need collection.new.search ≡ S.need collection.old.search) }
    ensures words_stay_as_many { length words.new ≡ length words.old }
    ensures refused_alters_nothing { OnErr result ((collection.new ≡ collection.old) × (words.new ≡ words.old) × (buffer.new ≡ buffer.old)) }
    ensures orders_alone_use_search_and_words { is_order call.now ≡ false → (collection.new.search ≡ collection.old.search) × (words.new ≡ words.old) }
    ensures performed_by_its_rule { Step (lent (S.reach collection.old.search) (S.need collection.old.search) (length words.old))
        (state (S.count collection.old.search) collection.old.entries buffer.old) call.now result
        (state (S.count collection.new.search) collection.new.entries buffer.new) }
{
    Ok(match call {
        Call::Order { question, gates } => order(collection, question, *gates, words)?,
        Call::Deposit { question, network } => Answer::Deposited {
            gates: collection.deposit(question, network)?,
        },
        Call::LookUp { question } => look_up(collection, question)?,
        Call::Strike { question } => {
            collection.strike(question)?;
            Answer::Struck
        }
        Call::Load { bytes } => Answer::Loaded(load(collection, bytes)),
        Call::Export => Answer::Exported {
            bytes: export(collection, buffer)?,
        },
    })
}
