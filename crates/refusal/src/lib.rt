// Why a call is refused, with document 01's number for each cause.
#![tactic(auto)]

ghost use Rattle.std.specs.Prelude.{◌≡◌};
ghost use Rattle.refusal.specs.Numbers.{cause_number};

/// The causes of document 01, in the order of their numbers.
#[derive(Clone, Copy, Debug, PartialEq, Eq)]
pub enum Refusal {
    /// A setting out of range: no sampler is made.
    Settings = 1,
    /// The six words asked are no well-formed distribution.
    Malformed = 2,
    /// The history's words are not whole rows.
    BrokenRows = 3,
    /// A recent row's state or objective is out of range.
    Objective = 4,
    /// A recent row's slot is neither absent nor well-formed with a value that was taken.
    Slot = 5,
    /// A recent row has one id twice.
    RepeatedId = 6,
    /// One id has two unequal distributions in the recent rows.
    UnequalId = 7,
    /// Discovery would get a 21st dimension.
    TooManyDimensions = 8,
    /// A new trial finds all 32 places taken.
    NoPlace = 9,
    /// The trial to be closed has no place.
    UnknownTrial = 10,
    /// An argument is outside the function's domain.
    OutOfDomain = 11,
    /// A fit without rows.
    NoRows = 12,
    /// A pivot of the fit is not above 0.
    Pivot = 13,
    /// The text is malformed, or its history is over 8,192 words.
    Text = 14,
}

impl Refusal {
    /// Document 01's number.
    pub fn number(self) -> u64
        ensures { result ≡ cause_number self }
    {
        self as u64
    }
}
