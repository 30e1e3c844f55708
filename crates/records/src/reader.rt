// Bytes read record after record.
ghost use Rattle.std.specs.Prelude.{◌≡◌, ◌≤◌, length};
ghost use Rattle.std.specs.Iterator.{YieldsFirst, item_count};

use crate::reading::{Record, read_record};
use mig::Refusal;

// What begins at a place of the bytes: a record, or why there is none.
#[derive(Clone, Copy, Debug, PartialEq, Eq)]
pub struct Part {
    pub place: usize,
    pub record: Result<Record, Refusal>,
}

// The parts of some bytes: record after record, up to the end or to the first fault.
// By a rule of the project a reader is the slice and its place.
#[derive(Drop)]
pub struct Reader<'a> {
    bytes: &'a [u8],
    place: usize,
    ghost in_bytes: { place ≤ length bytes.now },
}

// Words on a reader are imported in its impls: the struct itself reads the imports of the file.
impl<'a> Reader<'a> {
    ghost use Rattle.records.specs.Parts.{parts_of, rest};

    // The reader at the first byte.
    pub fn new(bytes: &'a [u8]) -> Reader<'a>
        ensures all_parts { rest result ≡ parts_of bytes.now }
        ensures no_more_parts_than_bytes { length (parts_of bytes.now) ≤ length bytes.now }
    {
        Reader { bytes, place: 0 }
    }
}

impl<'a> Iterator for Reader<'a> {
    ghost use Rattle.records.specs.Parts.{rest};

    type Item = Part;

    ghost next_gives = { YieldsFirst rest };

    ghost remaining = { item_count rest };

    fn next(&mut self) -> Option<Part> {
        let place = self.place;
        let (_, left) = self.bytes.split_at(place);
        if left.is_empty() {
            return None;
        }
        let (record, behind) = match read_record(left) {
            Ok((record, behind)) => (Ok(record), behind.len()),
            Err(fault) => (Err(fault), 0),
        };
        self.place = self.bytes.len() - behind;
        Some(Part { place, record })
    }
}
