// Exports.
ghost use Rattle.std.specs.Prelude.{◌≡◌, ◌≤◌, length, Ok, IfOk, MatchResult};
ghost use Rattle.mig.specs.Rules.{refused_by};
ghost use Rattle.entries.specs.Table.{table_of};
ghost use Rattle.entries.specs.Rows.{table};
ghost use Rattle.collection_laws.specs.Calls.{bytes_of, export_bytes, too_short, written};

use collection::Collection;
use entry::Entry;
use mig::Refusal;
use records::encode;

// How many bytes the record of an entry takes: none without a network.
fn record_bytes(entry: &Entry) -> usize
    ensures number_of_bytes { result ≡ length (bytes_of entry.now.key entry.now.lower entry.now.network) }
    ensures at_most_33 { result ≤ 33 }
{
    match entry.network {
        Some(network) => 12 + 3 * usize::from(network.count),
        None => 0,
    }
}

// How many bytes the records of all entries take.
fn all_bytes(rows: &[Entry]) -> usize
    requires at_most_64 { length rows.now ≤ 64 }
    ensures { result ≡ length (export_bytes (table_of rows.now)) }
{
    rows.iter().map(record_bytes).sum()
}

// Writes the record of each entry that has a network, one behind another.
fn write_records(rows: &[Entry], buffer: &mut [u8]) -> Result<usize, Refusal>
    requires room { length (export_bytes (table_of rows.now)) ≤ length buffer.old }
    ensures number_of_bytes { result ≡ Ok (length (export_bytes (table_of rows.now))) }
    ensures bytes_behind_stay { buffer.new ≡ written (export_bytes (table_of rows.now)) buffer.old }
{
    let mut end = 0;
    for row in rows {
        if let Some(network) = row.network {
            let record = encode(&row.key.question(), row.lower, &network)?;
            let start = end;
            end += record.len();
            buffer[start..end].copy_from_slice(&record);
        }
    }
    Ok(end)
}

// An export: the record of each entry that has a network, in the order of the keys. It answers
// how many bytes are written; those behind them stay.
pub fn export<S>(collection: &Collection<S>, buffer: &mut [u8]) -> Result<usize, Refusal>
    ensures refused_where_the_buffer_is_too_short { refused_by result ≡ too_short (table collection.now.entries) (length buffer.old) }
    ensures answers_the_number_of_bytes { IfOk result (λ bytes. bytes ≡ length (export_bytes (table collection.now.entries))) }
    ensures written_by_the_rule { MatchResult result (λ _. buffer.new ≡ written (export_bytes (table collection.now.entries)) buffer.old) (λ _. buffer.new ≡ buffer.old) }
{
    let rows = collection.rows();
    if buffer.len() < all_bytes(rows) {
        return Err(Refusal::BufferTooShort);
    }
    write_records(rows, buffer)
}
