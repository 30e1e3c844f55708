// Orders.
ghost use Rattle.std.specs.Prelude.{◌≡◌, ℕ, List, false, length, IfOk, OnErr, None, MatchResult};
ghost use Rattle.mig.specs.Questions.{Valid};
ghost use Rattle.mig.specs.Rules.{refused_by};
ghost use Rattle.search.specs.Meaning.{raised};
ghost use Rattle.filing.specs.Filing.{key_of};
ghost use Rattle.entry.specs.Held.{held};
ghost use Rattle.settling.specs.Settles.{Settles};
ghost use Rattle.entries.specs.Table.{kept_or_new, put};
ghost use Rattle.entries.specs.Rows.{table};
ghost use Rattle.collection_laws.specs.Calls.{order_refusal, network_given, Orders};
ghost use Rattle.collection_laws.specs.Law.{RightOrder};
ghost use Rattle.collection.specs.State.{state, order_answer};
ghost use Rattle.collection_laws.specs.Runs.{lent};

use crate::collection::Collection;
use crate::giving::give_out;
use collection_laws::Ordered;
use entry::Entry;
use filing::Key;
use mig::{Network, Question, Refusal};
use search::Search;
use settling::{Settled, settle};

// What is kept of an order's key before and after it, and how many numbers it asked.
#[derive(Clone, Copy)]
struct Change {
    before: Entry,
    after: Entry,
    asked: u8,
}

impl Change {
    // The kept network that is given: none if the lower number was above the gate limit.
    fn network_given(&self, gates: u8) -> Option<Network>
        ensures { result ≡ network_given gates (held self.now.before) (held self.now.after) }
    {
        if gates < self.before.lower {
            return None;
        }
        self.after.network.filter(|network| network.count <= gates)
    }
}

impl<S: Search> Collection<S> {
    // Settles the key of the question, as far as the gate limit and the kept network ask for it.
    fn settle_key(
        &mut self,
        question: &Question,
        gates: u8,
        words: &mut [u32],
    ) -> Result<Change, Refusal>
        ensures refused_by_the_rule { refused_by result ≡ order_refusal (lent (S.reach self.old.search) (S.need self.old.search) (length words.old)) question.now gates (table self.old.entries) }
        ensures reach_and_need_stay { (S.reach self.new.search ≡ S.reach self.old.search) × (S.need self.new.search ≡ S.need self.old.search) }
        ensures question_within_bounds { IfOk result (λ c. Valid question.now) }
        ensures of_the_key { IfOk result (λ c. (c.before.key ≡ key_of question.now) × (c.after.key ≡ key_of question.now)) }
        ensures settled_by_the_rule { MatchResult result
            (λ c. (held c.before ≡ kept_or_new (table self.old.entries) (key_of question.now))
            × Settles (key_of question.now) gates (held c.before) (held c.after) c.asked
            × (S.count self.new.search ≡ raised (S.count self.old.search) c.asked)
            × (table self.new.entries ≡ put (table self.old.entries) (key_of question.now) (held c.after)))
            (λ _. (self.new ≡ self.old) × (words.new ≡ words.old)) }
        ensures nothing_asked_leaves_search_and_words { IfOk result (λ c. c.asked ≡ 0 → (self.new.search ≡ self.old.search) × (words.new ≡ words.old)) }
    {
        self.search.check(question, gates, words.len())?;
        let before = self.entries.entry_or_new(Key::of(question)?)?;
        let Settled { entry, asked } = settle(before, &mut self.search, gates, words)?;
        self.entries.put(entry)?;
        Ok(Change {
            before,
            after: entry,
            asked,
        })
    }

    // An order: a network for the question with the fewest gates, if one of at most `gates` gates meets it. The network is in the
    // place; which one it is, and by which way it is carried, is left open.
    pub fn order(
        &mut self,
        question: &Question,
        gates: u8,
        place: &mut Network,
        words: &mut [u32],
    ) -> Result<Ordered, Refusal>
        ensures refused_by_the_rule { refused_by result ≡ order_refusal (lent (S.reach self.old.search) (S.need self.old.search) (length words.old)) question.now gates (table self.old.entries) }
        ensures reach_and_need_stay { (S.reach self.new.search ≡ S.reach self.old.search) × (S.need self.new.search ≡ S.need self.old.search) }
        ensures ordered_by_the_rule { IfOk result (λ o. (buffer : List ℕ) →
            Orders question.now gates (state (S.count self.old.search) self.old.entries buffer) (order_answer o place.new) (state (S.count self.new.search) self.new.entries buffer)) }
        ensures none_leaves_the_place { IfOk result (λ o. o.given ≡ false → place.new ≡ place.old) }
        ensures refused_alters_nothing { OnErr result ((self.new ≡ self.old) × (place.new ≡ place.old) × (words.new ≡ words.old)) }
        ensures nothing_asked_leaves_search_and_words { IfOk result (λ o. o.asked ≡ 0 → (self.new.search ≡ self.old.search) × (words.new ≡ words.old)) }
        ensures minimum_or_none_exactly { IfOk result (λ o. RightOrder question.now gates (order_answer o place.new)) }
    {
        let change = self.settle_key(question, gates, words)?;
        let network = change.network_given(gates);
        give_out(question, network, place)?;
        Ok(Ordered {
            given: network.is_some(),
            lower: change.after.lower,
            asked: change.asked,
        })
    }
}
