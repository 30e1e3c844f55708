// A way of carrying a table or a network over four inputs.
ghost use Rattle.std.specs.Prelude.{◌<◌};

// One of the 24 permutations of the inputs, by its number, the set of the inputs that are complemented, and whether the
// output is.
#[derive(Clone, Copy)]
pub struct Way {
    // A number and no enum: 24 names would say less than the table of permutations, which is read by the number.
    pub order: u8,
    pub mask: u8,
    pub flipped: bool,
    ghost listed: { order < 24 },
    ghost inputs: { mask < 16 },
}
