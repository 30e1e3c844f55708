// The digits of a number: how many there are, and how they are written into a buffer.
ghost use Rattle.std.specs.Prelude.{◌≡◌, ◌≤◌, length};
ghost use Rattle.std.specs.Fmt.{decimal};
ghost use Rattle.clause_text.specs.Writing.{Writes};

use itoa::write_digits;

// How many digits the number has.
pub(crate) fn digit_count(number: u64) -> usize
    ensures count { result ≡ length (decimal number) }
    ensures bound { result ≤ 20 }
{
    let mut digits = 1;
    let mut rest = number;
    while rest >= 10 {
        rest /= 10;
        digits += 1;
    }
    digits
}

// Writes the digits of the number behind a place, if there is room, and gives the place behind them.
pub(crate) fn write_decimal(number: u64, buffer: &mut [u8], place: usize) -> usize
    ensures { Writes (decimal number) buffer.old place buffer.new result }
{
    let digits = digit_count(number);
    if buffer.len() < place || buffer.len() - place < digits {
        return place;
    }
    write_digits(number, buffer, place + digits);
    place + digits
}
