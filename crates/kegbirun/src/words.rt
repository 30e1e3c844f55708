// The words of a line and what they say.
ghost use Rattle.std.specs.Prelude.{◌≤◌};

use mig::{Gate, Network};
use std::str::SplitAsciiWhitespace;
use thiserror::Error;

// Why a line cannot be read.
#[derive(Clone, Copy, Debug, Error)]
pub(crate) enum Unreadable {
    #[error("unknown command")]
    UnknownCommand,
    #[error("too few words for this command")]
    TooFewWords,
    #[error("too many words for this command")]
    TooManyWords,
    #[error("not a decimal number")]
    NoNumber,
    #[error("not a hexadecimal table")]
    NoTable,
    #[error("not a network")]
    NoNetwork,
    #[error("neither empty nor starter")]
    NoOpening,
    #[error("not a row of digits")]
    NoDigits,
}

// A value that one word says. It is no FromStr: that of a number refuses large ones, and a network is of another crate.
pub(crate) trait Word: Sized {
    // What is wrong with a word that says no such value.
    const WRONG: Unreadable;

    // The value that the word says, none if it says none.
    fn read(word: &str) -> Option<Self>;
}

// The value that the next word says.
pub(crate) fn next<T: Word>(words: &mut SplitAsciiWhitespace) -> Result<T, Unreadable> {
    let word = words.next().ok_or(Unreadable::TooFewWords)?;
    T::read(word).ok_or(T::WRONG)
}

// The number that a word of digits in the base spells, or the greatest where it is greater; none where it is no number.
fn number<const BASE: u32>(word: &str) -> Option<u32>
    requires lower { 2 ≤ BASE }
    requires upper { BASE ≤ 36 }
{
    if word.is_empty() {
        return None;
    }
    let mut value = 0u32;
    for byte in word.bytes() {
        let digit = char::from(byte).to_digit(BASE)?;
        value = value.saturating_mul(BASE).saturating_add(digit);
    }
    Some(value)
}

// A decimal number, or the greatest where it is greater: every number that a command takes is refused there.
impl Word for u8 {
    const WRONG: Unreadable = Unreadable::NoNumber;

    fn read(word: &str) -> Option<u8> {
        number::<10>(word).map(|value| u8::try_from(value).unwrap_or(u8::MAX))
    }
}

// A table in hexadecimal digits, or the greatest where it is greater: it is refused there.
impl Word for u32 {
    const WRONG: Unreadable = Unreadable::NoTable;

    fn read(word: &str) -> Option<u32> {
        number::<16>(word)
    }
}

// The three codes of a gate, parted by dots.
impl Word for Gate {
    const WRONG: Unreadable = Unreadable::NoNetwork;

    fn read(word: &str) -> Option<Gate> {
        let (first, later) = word.split_once('.')?;
        let (second, third) = later.split_once('.')?;
        Some(Gate {
            first: u8::read(first)?,
            second: u8::read(second)?,
            third: u8::read(third)?,
        })
    }
}

// The gates of a network, parted by commas, then a colon and the code of the output. The gates are counted up to 255;
// those behind the seventh are counted and left out, since such a network is refused.
impl Word for Network {
    const WRONG: Unreadable = Unreadable::NoNetwork;

    fn read(word: &str) -> Option<Network> {
        let (words, output) = word.split_once(':')?;
        let output = u8::read(output)?;
        if words.is_empty() {
            return Some(Network {
                output,
                ..Network::default()
            });
        }
        let mut gates = [Gate::default(); 7];
        for (i, word) in words.split(',').enumerate() {
            let gate = Gate::read(word)?;
            if let Some(place) = gates.get_mut(i) {
                *place = gate;
            }
        }
        Some(Network {
            count: u8::try_from(words.split(',').count()).unwrap_or(u8::MAX),
            gates,
            output,
        })
    }
}
