// The inputs that a way permutes, and the way back.
ghost use Rattle.std.specs.Prelude.{◌≡◌, ℕ, ◌^◌, ◌<◌};
ghost use Rattle.mig.specs.Networks.{Net};
ghost use Rattle.class_laws.specs.Ways.{carry_table, carry_net};
ghost use Rattle.class_laws.specs.Ways.{source as source_of, inverse as inverse_of};
ghost use Rattle.classes.specs.Reach.{way_of};

use crate::permutation::Permutation;
use crate::tables::number_of;
use crate::way::Way;

impl Way {
    // The input, counted from 0, that takes the place of an input; 0 for what is no input.
    pub fn source(self, input: u8) -> u8
        ensures answer { result ≡ source_of self.order input }
        ensures is_an_input { result < 4 }
    {
        let sources = Permutation::numbered(self.order).sources;
        sources.get(usize::from(input)).copied().unwrap_or(0)
    }

    // The way back.
    pub fn inverse(self) -> Way
        ensures answer { way_of result ≡ inverse_of (way_of self) }
        ensures carries_tables_back { (table : ℕ) → table < 2 ^ 16 → carry_table (way_of result) (carry_table (way_of self) table) ≡ table }
        ensures carries_networks_back { (net : Net) → carry_net (way_of result) (carry_net (way_of self) net) ≡ net }
    {
        let order = Permutation::numbered(self.order).inverse;
        let sources = Permutation::numbered(order).sources;
        let mask = number_of(4, |a| (self.mask >> sources[usize::from(a)]) % 2 == 1) as u8;
        Way {
            order,
            mask,
            flipped: self.flipped,
        }
    }
}
