// Why a call is refused. The host gets its number.
ghost use Rattle.sessions.specs.Refusals.{number_of};
ghost use Rattle.std.specs.Prelude.{◌≡◌};

// Each with its number at the C interface.
#[derive(Clone, Copy, PartialEq, Eq)]
pub enum Refusal {
    NoSuchConnection = 1,
    AlreadyOpen = 2,
    ClockBack = 3,
    ClockAbove = 4,
    NothingAsked = 5,
    AnswerTooLong = 6,
    BufferTooSmall = 7,
    NoSuchSession = 8,
    ListTooShort = 9,
    BadLimits = 10,
}

impl Refusal {
    pub fn number(self) -> u64
        ensures { result ≡ number_of self }
    {
        self as u64
    }
}
