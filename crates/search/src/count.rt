// The count of a search.
ghost use Rattle.std.specs.Prelude.{◌≡◌, ◌≤◌};
ghost use Rattle.search.specs.Meaning.{count_stop, raised};

// How many questions a search has taken, up to the number where a count stops.
#[derive(Drop)]
pub struct Count {
    number: u32,
    ghost stops: { number ≤ count_stop },
}

impl Count {
    // The count of a search that has taken no question.
    pub fn new() -> Count
        ensures { result.number ≡ 0 }
    {
        Count { number: 0 }
    }

    // The number that the count has reached.
    pub fn number(&self) -> u32
        ensures { result ≡ self.now.number }
    {
        self.number
    }

    // Counts one question more.
    pub fn raise(&mut self)
        ensures { self.new.number ≡ raised self.old.number 1 }
    {
        self.number = self.number.saturating_add(1);
    }
}
