// A run of calls.
ghost use Rattle.std.specs.Prelude.{◌≡◌, ℕ, List, ◌++◌, length, take, drop, min};
ghost use Rattle.collection_laws.specs.Calls.{State};
ghost use Rattle.collection_laws.specs.Runs.{Reply, lent, Run, History};
ghost use Rattle.collection_laws.specs.Law.{AllRight};
ghost use Rattle.collection_laws.specs.declared.call.Call.{Call as TheCall};
ghost use Rattle.collection_laws.specs.declared.call.Opening.{Opening as TheOpening};
ghost use Rattle.collection_laws.specs.Opening.{Opens};
ghost use Rattle.collection.specs.State.{state};

use crate::one_call::perform;
use collection::Collection;
use collection_laws::{Answer, Call};
use mig::Refusal;
use search::Search;

// Performs calls one after another, as many as there are places for replies. It answers how many it performed.
pub fn run<S: Search>(
    collection: &mut Collection<S>,
    calls: &[Call],
    replies: &mut [Result<Answer, Refusal>],
    words: &mut [u32],
    buffer: &mut [u8],
) -> usize
    ensures reach_and_need_stay { (S.reach collection.new.search ≡ S.reach collection.old.search) × (S.need collection.new.search ≡ S.need collection.old.search) }
    ensures words_stay_as_many { length words.new ≡ length words.old }
    ensures as_many_as_there_are_places { result ≡ min (length calls.now) (length replies.old) }
    ensures places_behind_stay { drop result replies.new ≡ drop result replies.old }
    ensures every_call_by_its_rule { let s = lent (S.reach collection.old.search) (S.need collection.old.search) (length words.old) in
        Run s (state (S.count collection.old.search) collection.old.entries buffer.old) (take result calls.now) (take result replies.new)
        (state (S.count collection.new.search) collection.new.entries buffer.new) }
    ensures every_reply_is_right { AllRight (take result calls.now) (take result replies.new) }
    ensures continues_an_earlier_history { let reach = S.reach collection.old.search in let need = S.need collection.old.search in
        (b : State) (cs : List TheCall) (rs : List Reply) → History reach need b cs rs (state (S.count collection.old.search) collection.old.entries buffer.old)
        → History reach need b (cs ++ take result calls.now) (rs ++ take result replies.new) (state (S.count collection.new.search) collection.new.entries buffer.new) }
    ensures whole_history_from_an_opening_is_right { let reach = S.reach collection.old.search in let need = S.need collection.old.search in
        (o : TheOpening) (b : State) (cs : List TheCall) (rs : List Reply) → Opens o b.table
        → History reach need b cs rs (state (S.count collection.old.search) collection.old.entries buffer.old)
        → AllRight (cs ++ take result calls.now) (rs ++ take result replies.new) }
{
    let count = calls.len().min(replies.len());
    for i in 0..count {
        replies[i] = perform(collection, &calls[i], words, buffer);
    }
    count
}
