// The collection: a search, and the entries.
ghost use Rattle.std.specs.Prelude.{◌≡◌, ◌≤◌, [], length};
ghost use Rattle.entries.specs.Table.{table_of, Rising};
ghost use Rattle.entries.specs.Rows.{table};

use entries::Entries;
use entry::Entry;

// A search held by value, and at most 64 entries.
#[derive(Drop)]
pub struct Collection<S> {
    pub(crate) search: S,
    pub(crate) entries: Entries,
}

impl<S> Collection<S> {
    // The collection that keeps nothing.
    pub fn empty(search: S) -> Collection<S>
        ensures search_as_given { result.search ≡ search }
        ensures nothing_kept { table result.entries ≡ [] }
    {
        Collection {
            search,
            entries: Entries::new(),
        }
    }

    // How many entries there are.
    pub fn len(&self) -> usize
        ensures { result ≡ length (table self.now.entries) }
    {
        self.entries.len()
    }

    // The entries, in the order of their keys.
    pub fn rows(&self) -> &[Entry]
        ensures all_rows { table_of result.now ≡ table self.now.entries }
        ensures at_most_64 { length result.now ≤ 64 }
        ensures keys_rise { Rising (table self.now.entries) }
    {
        self.entries.rows()
    }
}
