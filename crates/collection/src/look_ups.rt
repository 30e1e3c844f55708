// Look-ups and strikes.
ghost use Rattle.std.specs.Prelude.{◌≡◌, None, IfOk, OnErr, IfSome, MatchResult};
ghost use Rattle.mig.specs.Rules.{refused_by};
ghost use Rattle.filing.specs.Filing.{key_of};
ghost use Rattle.entry.specs.Held.{upper};
ghost use Rattle.entries.specs.Table.{kept_or_new, struck};
ghost use Rattle.entries.specs.Rows.{table};
ghost use Rattle.collection_laws.specs.Calls.{look_up_refusal, AnswersLookUp};
ghost use Rattle.collection_laws.specs.Law.{RightLookUp};
ghost use Rattle.collection.specs.State.{look_up_answer};

use crate::collection::Collection;
use crate::giving::give_out;
use collection_laws::LookedUp;
use filing::Key;
use mig::{Network, Question, Refusal};

impl<S> Collection<S> {
    // A look-up: the lower number, and the kept network, if there is one, as one for the question. It is in the place; the way of
    // carrying is left open.
    pub fn look_up(&self, question: &Question, place: &mut Network) -> Result<LookedUp, Refusal>
        ensures refused_by_the_rule { refused_by result ≡ look_up_refusal question.now (table self.now.entries) }
        ensures answered_by_the_rule { IfOk result (λ l. let kept = kept_or_new (table self.now.entries) (key_of question.now) in
            AnswersLookUp question.now kept.lower kept.network (look_up_answer l place.new)) }
        ensures answers_lower_and_upper_number { IfOk result (λ l. let kept = kept_or_new (table self.now.entries) (key_of question.now) in
            l ≡ record { lower = kept.lower; upper = upper kept }) }
        ensures upper_is_the_gates { IfOk result (λ l. IfSome l.upper (λ gates. gates ≡ place.new.count)) }
        ensures no_network_leaves_the_place { IfOk result (λ l. l.upper ≡ None → place.new ≡ place.old) }
        ensures refused_leaves_the_place { OnErr result (place.new ≡ place.old) }
        ensures lower_bound_and_network_are_right { IfOk result (λ l. RightLookUp question.now (look_up_answer l place.new)) }
    {
        let key = Key::of(question)?;
        let entry = self.entries.get(key).ok_or(Refusal::KeyNotKept)?;
        give_out(question, entry.network, place)?;
        Ok(LookedUp {
            lower: entry.lower,
            upper: entry.upper(),
        })
    }

    // A strike: the entry of the question's key is taken out. It answers 0.
    pub fn strike(&mut self, question: &Question) -> Result<u8, Refusal>
        ensures refused_by_the_rule { refused_by result ≡ look_up_refusal question.now (table self.old.entries) }
        ensures answers_zero { IfOk result (λ zero. zero ≡ 0) }
        ensures search_stays { self.new.search ≡ self.old.search }
        ensures struck_by_the_rule { MatchResult result (λ _. table self.new.entries ≡ struck (table self.old.entries) (key_of question.now)) (λ _. self.new ≡ self.old) }
    {
        self.entries.strike(Key::of(question)?)?;
        Ok(0)
    }
}
