// A way, and the table that it leads to.
ghost use Rattle.std.specs.Prelude.{◌≡◌, ◌≤◌, Bool};
ghost use Rattle.class_laws.specs.Ways.{carry_table};
ghost use Rattle.classes.specs.Reach.{by, way_of};

use crate::way::Way;

// A way from a table, and the table that it leads to.
#[derive(Clone, Copy)]
pub(crate) struct Candidate {
    pub(crate) from: u16,
    pub(crate) way: Way,
    pub(crate) table: u16,
    ghost reached: { carry_table (way_of way) from ≡ table },
}

impl Candidate {
    // The way that leaves the table as it is.
    pub(crate) fn unmoved(table: u16) -> Candidate
        ensures { result.from ≡ table }
    {
        Candidate {
            from: table,
            way: Way {
                order: 0,
                mask: 0,
                flipped: false,
            },
            table,
        }
    }

    // The smaller of the two tables that the way leads to, with its output as it is and complemented.
    pub(crate) fn smaller(mut way: Way, from: u16) -> Candidate
        ensures comes_from { result.from ≡ from }
        ensures least { (b : Bool) → result.table ≤ carry_table (by way.order way.mask b) from }
    {
        let plain = way.carry_inputs(from);
        way.flipped = !plain < plain;
        Candidate {
            from,
            way,
            table: plain.min(!plain),
        }
    }
}
