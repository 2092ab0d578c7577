// Every refusal, with its number.
ghost use Rattle.std.specs.Prelude.{◌≡◌};
ghost use Rattle.graph_tables.specs.Refusals.{number_of};

#[derive(Clone, Copy, Debug, PartialEq, Eq)]
pub enum Refusal {
    MissingAction = 1,
    MissingClock = 2,
    MissingLocation = 3,
    MissingVar = 4,
    TypeMismatch = 5,
    Type = 6,
    MismatchingPostStates = 7,
    UnsatisfiedGuard = 8,
    Invariant = 9,
    NoEffects = 10,
    EffectOnSend = 11,
    EffectOnReceive = 12,
    Communication = 13,
    NotSend = 14,
    NotReceive = 15,
    Sync = 16,
    MissingPg = 17,
    ActionNotInPg = 18,
    LocationNotInPg = 19,
    OutOfCapacity = 20,
    Empty = 21,
    NotEmpty = 22,
    NotFull = 23,
    ProbingHandshakeChannel = 24,
    ProbingInfiniteQueue = 25,
    Overflow = 26,
    NoRoom = 27,
    TableFull = 28,
    NoProcess = 29,
    MissingChannel = 30,
    ChannelTooLarge = 31,
    BadState = 32,
}

impl Refusal {
    pub fn number(self) -> u32
        ensures { result ≡ number_of self }
    {
        self as u32
    }
}
