// The first line of the text: how many variables and clauses there are.
ghost use Rattle.std.specs.Prelude.{◌≡◌, ◌≤◌, length};
ghost use Rattle.cnf.specs.Text.{head_text};
ghost use Rattle.clause_text.specs.Writing.{Writes};

use crate::bytes::write_bytes;
use crate::decimal::{digit_count, write_decimal};

// How many bytes the first line has.
pub(crate) fn head_length(variables: u32, clauses: usize) -> usize
    ensures count { result ≡ length (head_text variables clauses) }
    ensures bound { result ≤ 48 }
{
    8 + digit_count(variables as u64) + digit_count(clauses as u64)
}

// Writes the first line behind a place, if there is room, and gives the place behind it.
pub(crate) fn write_head(variables: u32, clauses: usize, buffer: &mut [u8], place: usize) -> usize
    ensures { Writes (head_text variables clauses) buffer.old place buffer.new result }
{
    let first = write_bytes(b"p cnf ", buffer, place);
    let space = write_decimal(variables as u64, buffer, first);
    let second = write_bytes(b" ", buffer, space);
    let end = write_decimal(clauses as u64, buffer, second);
    write_bytes(b"\n", buffer, end)
}
