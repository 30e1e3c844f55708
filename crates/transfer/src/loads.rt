// Loads.
ghost use Rattle.std.specs.Prelude.{◌≡◌};
ghost use Rattle.records.specs.Parts.{parts_of};
ghost use Rattle.entries.specs.Rows.{table};
ghost use Rattle.collection_laws.specs.Loads.{ended, LoadsFrom};

use collection::Collection;
use collection_laws::{Fault, Loaded};
use mig::Refusal;
use records::Reader;

// What a load is answered that ends at a place by a refusal.
fn ended(loaded: Loaded, refusal: Refusal, place: usize) -> Loaded
    ensures { result ≡ ended loaded.taken loaded.passed place refusal }
{
    Loaded {
        fault: Some(Fault { refusal, place }),
        ..loaded
    }
}

// A load: records are taken as deposits, up to the first fault. What was taken stays.
pub fn load<S>(collection: &mut Collection<S>, bytes: &[u8]) -> Loaded
    ensures search_stays { collection.new.search ≡ collection.old.search }
    ensures loaded_by_the_rule { LoadsFrom (parts_of bytes.now) 0 0 (table collection.old.entries) result (table collection.new.entries) }
{
    let mut loaded = Loaded {
        taken: 0,
        passed: 0,
        fault: None,
    };
    for part in Reader::new(bytes) {
        let place = part.place;
        match part.record {
            Err(fault) => return ended(loaded, fault, place),
            Ok(record) => match collection.deposit(&record.question, &record.network) {
                Ok(_) => loaded.taken += 1,
                Err(Refusal::NoImprovement) => loaded.passed += 1,
                Err(refusal) => return ended(loaded, refusal, place),
            },
        }
    }
    loaded
}
