// A network as a value of fixed size.
ghost use Rattle.std.specs.Prelude.{◌≡◌, min, length};
ghost use Rattle.mig.specs.Networks.{net_of};

// A gate: the codes of its three fan-ins. A code is twice a node, plus 1 if complemented.
#[derive(Clone, Copy, Debug, Default, PartialEq, Eq)]
pub struct Gate {
    pub first: u8,
    pub second: u8,
    pub third: u8,
}

// A network of `count` gates, which stand in the first places of `gates`, and the code of its output.
// The places behind them are ignored when read and 0 when written.
// By a rule of the project a network is a value of seven places and a count, and no memory is allocated for it.
#[derive(Clone, Copy, Debug, Default, PartialEq, Eq)]
pub struct Network {
    pub count: u8,
    pub gates: [Gate; 7],
    pub output: u8,
}

impl Network {
    // The gates, at most seven.
    pub fn gates(&self) -> &[Gate]
        ensures gates { result.now ≡ (net_of self.now).gates }
        ensures counted_up_to_seven { length result.now ≡ min self.now.count 7 }
    {
        &self.gates[..usize::from(self.count).min(7)]
    }
}
