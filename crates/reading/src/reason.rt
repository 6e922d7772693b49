// Why a value is given as it is.

ghost use Rattle.std.specs.Prelude.{◌≡◌, leb};

// A live value, or the first of the paper's reasons for the replacement; in the order of their numbers, from 0.
#[derive(Clone, Copy, Debug, PartialEq, Eq)]
pub enum Reason {
    Live,
    Forced,
    NeverHeard,
    TooOld,
    NotCarried,
    NewerThanTelegram,
    MarkError,
    MarkUndefined,
    CodeUnknown,
}

impl Reason {
    ghost use Rattle.reading.specs.Reason.{reason_number};

    // The paper's number.
    pub fn number(self) -> u8
        ensures { result ≡ reason_number self }
    {
        match self {
            Reason::Live => 0,
            Reason::Forced => 1,
            Reason::NeverHeard => 2,
            Reason::TooOld => 3,
            Reason::NotCarried => 4,
            Reason::NewerThanTelegram => 5,
            Reason::MarkError => 6,
            Reason::MarkUndefined => 7,
            Reason::CodeUnknown => 8,
        }
    }

    // Whether the value is live: ok or forced.
    pub fn is_live(self) -> bool
        ensures { result ≡ leb (reason_number self) 1 }
    {
        matches!(self, Reason::Live | Reason::Forced)
    }
}
