// The bits of an assignment, a byte of 0 or 1 for each variable.
ghost use Rattle.std.specs.Prelude.{◌≡◌, ℕ, ◌+◌, ◌≤◌, nat_lt};
ghost use Rattle.std.specs.List.{list_all};
ghost use Rattle.cnf.specs.Meaning.{pick};
ghost use Rattle.cnf.specs.Numbers.{bit_of};
ghost use Rattle.cnf.specs.Rules.{bits_of_bytes};

// Whether the variable with a number holds.
pub(crate) fn bit(bytes: &[u8], variable: usize) -> bool
    ensures { result ≡ bit_of (bits_of_bytes bytes.now) variable }
{
    bytes.get(variable.saturating_sub(1)) == Some(&1)
}

// Whether each byte is 0 or 1.
pub(crate) fn all_bits(bytes: &[u8]) -> bool
    ensures { result ≡ list_all (λ b. nat_lt b 2) bytes.now }
{
    bytes.iter().all(|byte| *byte < 2)
}

// Which of `count` variables in a row holds: the last one that does, counted from 0, or 0.
#[tactic(auto, unfolding(cnf::specs::Meaning::pick))]
pub(crate) fn last_that_holds(bytes: &[u8], first: u32, count: u8) -> u8
    ensures choice { result ≡ pick count (λ j. bit_of (bits_of_bytes bytes.now) (first + j)) }
    ensures bound { result ≤ count }
{
    let mut last = 0;
    for place in 0..count {
        if bit(bytes, first as usize + usize::from(place)) {
            last = place;
        }
    }
    last
}
