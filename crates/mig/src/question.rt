// What is asked of a network.

// The limits: the greatest level of the output, 0 to 7, and the greatest fan-out of a gate, 1 to 19. Limits stand in order by
// the depth limit, and then by the fan-out limit.
#[derive(Clone, Copy, Debug, PartialEq, Eq, PartialOrd, Ord)]
pub struct Limits {
    pub depth: u8,
    pub fan_out: u8,
}

// A question: the number of inputs, 0 to 4, a table of a bit for each of the 2^inputs rows, and the limits.
#[derive(Clone, Copy, Debug, PartialEq, Eq)]
pub struct Question {
    pub inputs: u8,
    pub table: u32,
    pub limits: Limits,
}
