// Tables lifted to four inputs, and carried by a way.
ghost use Rattle.std.specs.Prelude.{◌≡◌, ℕ, ◌^◌, ◌<◌, ◌≤◌, ◌-◌, Bool, true, false};
ghost use Rattle.class_laws.specs.Ways.{carry_table};
ghost use Rattle.class_laws.specs.Lifting.{lift_table};
ghost use Rattle.mig.specs.Rules.{unless_refused, table_refusal};
ghost use Rattle.mig.specs.Tables.{table_from};
ghost use Rattle.classes.specs.Reach.{by, way_of};

use crate::permutation::Permutation;
use crate::way::Way;
use checks::check_table;
use mig::Refusal;

// The number of `rows` bits whose bit t is what `bit` gives at t.
pub(crate) fn number_of<F: Fn(u8) -> bool>(rows: u8, bit: F) -> u16
    requires few { rows ≤ 16 }
    requires bits { (t : ℕ) → t < rows → F.pre bit t }
    ensures answer { (g : ℕ → Bool) → ((t : ℕ) (b : Bool) → t < rows → F.post bit t b → b ≡ g t) → result ≡ table_from rows 0 g }
    ensures is_below { result < 2 ^ rows }
{
    let mut number = 0;
    for t in (0..rows).rev() {
        number = number * 2 + u16::from(bit(t));
    }
    number
}

impl Way {
    // The table carried by the way, with its output as it is.
    pub(crate) fn carry_inputs(self, table: u16) -> u16
        ensures plain { result ≡ carry_table (by self.order self.mask false) table }
        ensures complemented { 65535 - result ≡ carry_table (by self.order self.mask true) table }
    {
        let rows = Permutation::numbered(self.order).rows;
        number_of(
            16,
            |t| (table >> (rows[usize::from(t)] ^ self.mask)) % 2 == 1,
        )
    }
}

// The table over four inputs carried by a way.
pub fn carry_table(way: Way, table: u16) -> u16
    ensures { result ≡ carry_table (way_of way) table }
{
    let plain = way.carry_inputs(table);
    if way.flipped { !plain } else { plain }
}

// The table over `inputs` inputs as one over four: row t has the value of row t mod 2^inputs.
pub fn lift_table(inputs: u8, table: u32) -> Result<u16, Refusal>
    ensures { result ≡ unless_refused (table_refusal inputs table) (lift_table 4 inputs table) }
{
    check_table(inputs, table)?;
    let width = 1u8 << inputs;
    Ok(number_of(16, |t| (table >> (t % width)) % 2 == 1))
}
