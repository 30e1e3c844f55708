// Why a call is refused.
ghost use Rattle.std.specs.Prelude.{◌≡◌};
ghost use Rattle.mig.specs.Refusals.{number_of};

// All numbers stand here, those too that no call gives yet.
#[derive(Clone, Copy, PartialEq, Eq, Debug)]
pub enum Refusal {
    InputsAboveFour = 1,
    TableBitBeyondRows = 2,
    DepthLimitAboveSeven = 3,
    FanOutLimitOutOfRange = 4,
    GatesAboveReach = 5,
    TooFewWorkWords = 6,
    CollectionFull = 7,
    KeyNotKept = 8,
    MalformedNetwork = 9,
    WrongTable = 10,
    LevelAboveLimit = 11,
    FanOutAboveLimit = 12,
    NoImprovement = 13,
    BufferTooShort = 14,
    BytesEndInRecord = 15,
    WrongRecordLength = 16,
    UnknownRecordKind = 17,
    NoAssignment = 18,
    ClauseFails = 19,
}

impl Refusal {
    // The number by which the refusal is known outside.
    pub fn number(self) -> u8
        ensures { result ≡ number_of self }
    {
        self as u8
    }
}
