// The representative of a table, and a way to it.
ghost use Rattle.std.specs.Prelude.{◌≡◌, ℕ, ◌<◌, ◌≤◌, Bool, IfOk};
ghost use Rattle.class_laws.specs.Lifting.{lift_table};
ghost use Rattle.class_laws.specs.Ways as ways;
ghost use Rattle.class_laws.specs.Ways.{IsWay, carry_table, AllPermutations, Representative, representative_of};
ghost use Rattle.class_laws.specs.Classes.{SameMinimum, SharedExactlyInClass};
ghost use Rattle.mig.specs.Rules.{unless_refused, refused_by, table_refusal};
ghost use Rattle.classes.specs.Reach.{by, way_of};

use crate::candidate::Candidate;
use crate::tables::lift_table;
use crate::way::Way;
use mig::Refusal;

// The smallest of the candidate and of the tables that a permutation leads to.
fn smallest_by(order: u8, start: Candidate) -> Candidate
    requires { order < 24 }
    ensures comes_from { result.from ≡ start.from }
    ensures falls { result.table ≤ start.table }
    ensures least { (m : ℕ) (b : Bool) → m < 16 → result.table ≤ carry_table (by order m b) start.from }
{
    let mut best = start;
    // A loop: all 65,536 tables take 0.31 s of CPU time with it, 0.37 to 0.44 s with `min_by_key` on a chain.
    for mask in 0..16 {
        let plain = Way {
            order,
            mask,
            flipped: false,
        };
        let next = Candidate::smaller(plain, start.from);
        if next.table < best.table {
            best = next;
        }
    }
    best
}

// The smallest table that a way leads to, and such a way.
fn smallest(table: u16) -> Candidate
    ensures comes_from { result.from ≡ table }
    ensures least { (w : ways.Way) → IsWay w → result.table ≤ carry_table w table }
{
    let mut best = Candidate::unmoved(table);
    for order in 0..24 {
        best = smallest_by(order, best);
    }
    best
}

// The smallest table of the class of `table`, over four inputs.
pub fn representative(inputs: u8, table: u32) -> Result<u16, Refusal>
    ensures answer { result ≡ unless_refused (table_refusal inputs table) (representative_of (lift_table 4 inputs table)) }
    ensures smallest_reached_by_a_way { IfOk result (λ g. Representative (lift_table 4 inputs table) g) }
    ensures shared_exactly_in_the_class { IfOk result (λ g. SharedExactlyInClass inputs table g) }
    ensures class_shares_its_minimum { IfOk result (λ g. SameMinimum inputs table 4 g) }
    ensures ways_have_every_permutation { AllPermutations }
{
    let lifted = lift_table(inputs, table)?;
    Ok(smallest(lifted).table)
}

// A way from a table, lifted to four inputs, to its representative; which one is left open.
pub fn way_to_representative(inputs: u8, table: u32) -> Result<Way, Refusal>
    ensures refused { refused_by result ≡ table_refusal inputs table }
    ensures leads_there { IfOk result (λ w. Representative (lift_table 4 inputs table) (carry_table (way_of w) (lift_table 4 inputs table))) }
{
    let lifted = lift_table(inputs, table)?;
    Ok(smallest(lifted).way)
}
