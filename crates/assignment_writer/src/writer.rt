// Bits written as bytes into a lent buffer.
ghost use Rattle.std.specs.Prelude.{◌<◌, ◌∷◌, []};
ghost use Rattle.assignment_writer.specs.Writing.{Wrote};
ghost use Rattle.assignment_writer.specs.Said.{one_of, below, first_bits};

// A writer: the buffer, and the place that is written next. At the end of the buffer it writes nothing more.
#[derive(Drop)]
pub(crate) struct AssignmentWriter<'a> {
    pub(crate) buffer: &'a mut [u8],
    pub(crate) place: usize,
}

impl<'a> AssignmentWriter<'a> {
    // Writes a bit, as a byte of 0 or 1.
    pub(crate) fn put(&mut self, bit: bool)
        ensures { Wrote self.old (bit ∷ []) self.new }
    {
        if self.place < self.buffer.len() {
            self.buffer[self.place] = u8::from(bit);
            self.place += 1;
        }
    }

    // Writes for each of some numbers from 0 on whether it is `number`.
    pub(crate) fn put_one_of(&mut self, numbers: usize, number: u8)
        ensures { Wrote self.old (one_of numbers number) self.new }
    {
        for j in 0..numbers {
            self.put(usize::from(number) == j);
        }
    }

    // Writes for each of some numbers from 0 on whether it is below `number`.
    pub(crate) fn put_below(&mut self, numbers: usize, number: u8)
        ensures { Wrote self.old (below numbers number) self.new }
    {
        for j in 0..numbers {
            self.put(j < usize::from(number));
        }
    }

    // Writes the first bits of a number.
    pub(crate) fn put_bits(&mut self, bits: usize, number: u16)
        ensures { Wrote self.old (first_bits bits number) self.new }
    {
        let mut left = number;
        for _t in 0..bits {
            self.put(left % 2 == 1);
            left /= 2;
        }
    }
}
