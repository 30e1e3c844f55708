// Settling a key: what an order asks a search, and what it leaves kept of the key.
#![tactic(auto)]

ghost use Rattle.std.specs.Prelude.{◌≡◌, ◌≤◌, length, Some, is_ok, IsTrue, IfOk, MatchResult};
ghost use Rattle.mig.specs.Networks.{net_of, network_of};
ghost use Rattle.mig.specs.Normal.{normalised};
ghost use Rattle.mig.specs.Questions.{Valid};
ghost use Rattle.mig.specs.Rules.{refused_by};
ghost use Rattle.search.specs.Meaning.{raised, ask_refusal, Holds};
ghost use Rattle.least_gates.specs.Asked.{NoneFrom};
ghost use Rattle.filing.specs.Filing.{key_question};
ghost use Rattle.entry.specs.Held.{held, stop};
ghost use Rattle.settling.specs.Settles.{asks_nothing, Settles};

use entry::Entry;
use filing::Filed;
use least_gates::{Asked, least_gates};
use mig::{Network, Refusal};
use search::Search;

// What an order leaves kept of its key, and how many numbers of gates it asked.
#[derive(Clone, Copy)]
pub struct Settled {
    pub entry: Entry,
    pub asked: u8,
}

// The first number that an order does not ask: one above its gate limit, or the upper number if that is less.
fn stop(entry: &Entry, gates: u8) -> u8
    requires { gates ≤ 7 }
    ensures { result ≡ stop gates (held entry.now) }
{
    match entry.upper() {
        None => gates + 1,
        Some(upper) => upper.min(gates + 1),
    }
}

// What is kept where a network is found that has the fewest gates: that network, normalised, and their number. The refusals
// of filing do not occur.
fn with_found(entry: Entry, least: u8, found: &Network) -> Result<Entry, Refusal>
    requires valid { Valid (key_question entry.key) }
    requires up_to_seven { least ≤ 7 }
    requires holds { Holds (key_question entry.key) least found.now }
    requires none_before { NoneFrom (key_question entry.key) entry.lower least }
    ensures not_refused { IsTrue (is_ok result) }
    ensures key { IfOk result (λ e. e.key ≡ entry.key) }
    ensures kept { IfOk result (λ e. held e ≡ record { lower = least; network = Some (network_of (normalised 4 (net_of found.now))) }) }
{
    let Filed { key, network } = Filed::new(entry.key, found)?;
    Ok(Entry {
        key,
        lower: least,
        network: Some(network),
    })
}

// What is kept where asking up to a number shows that no network has fewer gates: that number, and the network as it is.
fn with_lower(entry: Entry, lower: u8) -> Entry
    requires { NoneFrom (key_question entry.key) entry.lower lower }
    ensures key { result.key ≡ entry.key }
    ensures kept { held result ≡ record { lower = lower; network = entry.network } }
{
    Entry {
        key: entry.key,
        lower,
        network: entry.network,
    }
}

// Asks with the lower number of gates, one more, and so on up to the gate limit, as far as no network is kept that is as small,
// and keeps what that shows. By a rule of the project the words are lent, as the search takes them.
pub fn settle<S: Search>(
    entry: Entry,
    search: &mut S,
    gates: u8,
    words: &mut [u32],
) -> Result<Settled, Refusal>
    ensures refused_by_the_rule { refused_by result ≡ ask_refusal (key_question entry.key) gates (S.reach search.old) (S.need search.old) (length words.old) }
    ensures reach_and_need_stay { (S.reach search.new ≡ S.reach search.old) × (S.need search.new ≡ S.need search.old) }
    ensures keeps_the_key { IfOk result (λ s. s.entry.key ≡ entry.key) }
    ensures settled_by_the_rule { MatchResult result (λ s. (S.count search.new ≡ raised (S.count search.old) s.asked) × Settles entry.key gates (held entry) (held s.entry) s.asked)
        (λ _. (search.new ≡ search.old) × (words.new ≡ words.old)) }
    ensures nothing_asked_leaves_search_and_words { IfOk result (λ s. s.asked ≡ 0 → (search.new ≡ search.old) × (words.new ≡ words.old)) }
    ensures asks_nothing_again { IfOk result (λ s. IsTrue (asks_nothing gates (held s.entry))) }
{
    let question = entry.key.question();
    search.check(&question, gates, words.len())?;
    if gates < entry.lower || entry.is_settled() {
        return Ok(Settled { entry, asked: 0 });
    }
    let mut found = Network::default();
    let end = stop(&entry, gates);
    let Asked {
        least,
        times: asked,
    } = least_gates(search, &question, entry.lower, end, &mut found, words)?;
    let entry = match least {
        Ok(least) => with_found(entry, least, &found)?,
        Err(lower) => with_lower(entry, lower),
    };
    Ok(Settled { entry, asked })
}
