// What document 01 refuses: each reason by its number, and the place.
ghost use Rattle.std.specs.Prelude.{◌≡◌, Some};
ghost use Rattle.letters.specs.Refusal.{number_of, at_start, refusal_text};

use std::error::Error;
use std::fmt;

/// Why something lent is refused: the numbers are those of document 01 and the requests.
#[derive(Clone, Copy, Debug, PartialEq, Eq)]
pub enum Reason {
    WordMark = 1,
    WordLength = 2,
    CutWord = 3,
    ManyWords = 4,
    ManyLetters = 5,
    RepeatedWord = 6,
    ShortTable = 7,
    OtherTable = 8,
    LongText = 9,
    ShortColumns = 10,
    OtherColumns = 11,
    NoReading = 12,
    NotReading = 13,
    ShortBuffer = 14,
    BadBlock = 15,
    LongBook = 16,
    BadMap = 18,
    NoNumber = 21,
    GreatestCount = 22,
}

impl Reason {
    pub fn number(self) -> u16
        ensures { result ≡ number_of self }
    {
        self as u16
    }
}

/// A refusal: its reason, and the number of the record that is refused, 0 where it is no record.
#[derive(Clone, Copy, Debug, PartialEq, Eq)]
pub struct Refusal {
    pub reason: Reason,
    pub place: u16,
}

impl From<Reason> for Refusal {
    ghost from_gives = { at_start };

    fn from(reason: Reason) -> Refusal {
        Refusal { reason, place: 0 }
    }
}

/// The reason's number, then the place.
impl fmt::Display for Refusal {
    ghost output = { λ r. Some (refusal_text r) };

    fn fmt<W: fmt::Write>(&self, f: &mut fmt::Formatter<W>) -> fmt::Result {
        write!(f, "{} {}", self.reason.number(), self.place)
    }
}

impl Error for Refusal {}
