// The inner table of a collection.
ghost use Rattle.std.specs.Prelude.{◌≡◌, ◌≢◌, ◌<◌, ◌≤◌, length, [], None, Some, IsOk, IfOk, IfErr, OnOk, IfSome, MatchResult, option_map};
ghost use Rattle.std.proofs.lemmas.Map.Keys.{IsStrictlySortedBy-prop};
ghost use Rattle.mig.specs.declared.refusal.Refusal.TheVariants.{NoImprovement};
ghost use Rattle.mig.specs.Rules.{refused_by, refuse_if};
ghost use Rattle.entry.specs.Held.{held, upper};
ghost use Rattle.entries.specs.Table.{Rising, table_of, kept, kept_or_new, put, struck, full_refusal, missing_refusal, deposit_refusal, is_no_more, with_network};
ghost use Rattle.entries.specs.Places.{StandsAt, FitsAt};

use arrayvec::ArrayVec;
use entry::Entry;
use filing::{Filed, Key};
use mig::Refusal;

// At most 64 entries, whose keys rise.
#[derive(Drop)]
pub struct Entries {
    rows: ArrayVec<Entry, 64>,
    ghost rising: { Rising (table_of rows.items) } by { IsStrictlySortedBy-prop _ _ },
}

impl Entries {
    ghost use Rattle.entries.specs.Rows.{table};

    // No entries.
    #[tactic(auto, using(crate::proofs::Tables::rising_none))]
    pub fn new() -> Entries
        ensures empty { table result ≡ [] }
    {
        Entries {
            rows: ArrayVec::new(),
        }
    }

    // How many entries there are.
    pub fn len(&self) -> usize
        ensures counted { result ≡ length (table self.now) }
        ensures at_most_64 { result ≤ 64 }
    {
        self.rows.len()
    }

    // The entries, in the order of their keys.
    pub fn rows(&self) -> &[Entry]
        ensures all_rows { table_of result.now ≡ table self.now }
        ensures at_most_64 { length result.now ≤ 64 }
        ensures keys_rise { Rising (table self.now) }
    {
        &self.rows
    }

    // What is kept of a key, if it is kept.
    pub fn get(&self, key: Key) -> Option<Entry>
        ensures what_is_kept { kept (table self.now) key ≡ option_map held result }
        ensures of_the_key { IfSome result (λ e. e.key ≡ key) }
    {
        match self.place_of(key) {
            Ok(place) => Some(self.rows[place]),
            Err(_) => None,
        }
    }

    // What is kept of a key, or a new entry for it if there is room.
    pub fn entry_or_new(&self, key: Key) -> Result<Entry, Refusal>
        ensures refused_where_full { refused_by result ≡ full_refusal (table self.now) key }
        ensures of_the_key { IfOk result (λ e. e.key ≡ key) }
        ensures what_is_kept_or_new { IfOk result (λ e. held e ≡ kept_or_new (table self.now) key) }
    {
        match self.place_of(key) {
            Ok(place) => Ok(self.rows[place]),
            Err(_) if self.rows.is_full() => Err(Refusal::CollectionFull),
            Err(_) => Ok(Entry::new(key)),
        }
    }

    // Keeps an entry: in the place of what is kept of its key, or at its place in the order.
    pub fn put(&mut self, entry: Entry) -> Result<(), Refusal>
        ensures refused_where_full { refused_by result ≡ full_refusal (table self.old) entry.key }
        ensures put_or_unchanged { MatchResult result (λ _. table self.new ≡ put (table self.old) entry.key (held entry)) (λ _. self.new ≡ self.old) }
        ensures own_key { OnOk result (kept (table self.new) entry.key ≡ Some (held entry)) }
        ensures other_keys { (k : Key) → k ≢ entry.key → kept (table self.new) k ≡ kept (table self.old) k }
    {
        match self.place_of(entry.key) {
            Ok(place) => {
                self.rows[place] = entry;
                Ok(())
            }
            Err(place) => self.insert(place, entry),
        }
    }

    // Keeps a network under its key, unless the key keeps one of no more gates.
    // By a rule of the project the entry of the key is lent and changed, and the others stay; a new key gets a new entry.
    pub fn deposit(&mut self, filed: Filed) -> Result<(), Refusal>
        ensures refused_by_the_rule { refused_by result ≡ deposit_refusal (table self.old) filed.key filed.network.count }
        ensures put_or_unchanged { MatchResult result
            (λ _. table self.new ≡ put (table self.old) filed.key (with_network (kept_or_new (table self.old) filed.key) filed.network))
            (λ _. self.new ≡ self.old) }
        ensures own_key { OnOk result (kept (table self.new) filed.key ≡ Some (with_network (kept_or_new (table self.old) filed.key) filed.network)) }
        ensures other_keys { (k : Key) → k ≢ filed.key → kept (table self.new) k ≡ kept (table self.old) k }
    {
        match self.place_of(filed.key) {
            Ok(place) => improve(&mut self.rows[place], filed),
            Err(place) => {
                let mut entry = Entry::new(filed.key);
                entry.network = Some(filed.network);
                self.insert(place, entry)
            }
        }
    }

    // Takes the entry of a key out.
    pub fn strike(&mut self, key: Key) -> Result<(), Refusal>
        ensures refused_where_not_kept { refused_by result ≡ missing_refusal (table self.old) key }
        ensures struck_or_unchanged { MatchResult result (λ _. table self.new ≡ struck (table self.old) key) (λ _. self.new ≡ self.old) }
        ensures own_key { kept (table self.new) key ≡ None }
        ensures other_keys { (k : Key) → k ≢ key → kept (table self.new) k ≡ kept (table self.old) k }
    {
        match self.place_of(key) {
            Ok(place) => {
                self.rows.remove(place);
                Ok(())
            }
            Err(_) => Err(Refusal::KeyNotKept),
        }
    }

    // An entry at the place that its key would have.
    fn insert(&mut self, place: usize, entry: Entry) -> Result<(), Refusal>
        requires in_range { place ≤ length self.old.rows.items }
        requires fits { FitsAt entry.key self.old.rows.items place }
        ensures refused_where_full { refused_by result ≡ full_refusal (table self.old) entry.key }
        ensures put_or_unchanged { MatchResult result (λ _. table self.new ≡ put (table self.old) entry.key (held entry)) (λ _. self.new ≡ self.old) }
    {
        if self.rows.is_full() {
            return Err(Refusal::CollectionFull);
        }
        self.rows.insert(place, entry);
        Ok(())
    }

    // Where the key stands, or else where it would stand.
    fn place_of(&self, key: Key) -> Result<usize, usize>
        ensures in_range { MatchResult result (λ i. i < length self.now.rows.items) (λ i. i ≤ length self.now.rows.items) }
        ensures place { MatchResult result (StandsAt key self.now.rows.items) (FitsAt key self.now.rows.items) }
    {
        self.rows.binary_search_by_key(&key, |row| row.key)
    }
}

// Keeps a network in the entry of its key, unless the entry has one of no more gates.
fn improve(row: &mut Entry, filed: Filed) -> Result<(), Refusal>
    requires same_key { row.old.key ≡ filed.key }
    ensures refused_where_no_fewer { refused_by result ≡ refuse_if (is_no_more (upper (held row.old)) filed.network.count) NoImprovement }
    ensures same_key { row.new.key ≡ row.old.key }
    ensures improved_or_unchanged { MatchResult result (λ _. held row.new ≡ with_network (held row.old) filed.network) (λ _. row.new ≡ row.old) }
{
    if row
        .upper()
        .is_some_and(|upper| upper <= filed.network.count)
    {
        return Err(Refusal::NoImprovement);
    }
    row.network = Some(filed.network);
    Ok(())
}
