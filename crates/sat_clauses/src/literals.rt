// Literals, two in a word.

ghost use Rattle.std.specs.Prelude.{◌≡◌, ◌/◌, ◌<◌, length};
ghost use Rattle.sat_laws.specs.Formulas.{literal_at, with_literal};

// The literal in a place, and 0 past the end.
#[tactic(auto, unfolding(sat_laws::specs::Formulas::literal_at))]
pub fn literal(words: &[u32], place: usize) -> u32
    ensures value { result ≡ literal_at words.now place }
    ensures half_a_word { result < 65536 }
{
    if place / 2 >= words.len() {
        return 0;
    }
    let word = words[place / 2];
    if place % 2 == 0 {
        word % 65536
    } else {
        word / 65536
    }
}

// Writes a literal into a place.
#[tactic(auto, unfolding(sat_laws::specs::Formulas::with_literal))]
pub fn write_literal(words: &mut [u32], place: usize, literal: u32)
    requires within { place / 2 < length words.old }
    requires half_a_word { literal < 65536 }
    ensures written { words.new ≡ with_literal words.old place literal }
{
    let word = words[place / 2];
    words[place / 2] = if place % 2 == 0 {
        word / 65536 * 65536 + literal
    } else {
        word % 65536 + 65536 * literal
    };
}
