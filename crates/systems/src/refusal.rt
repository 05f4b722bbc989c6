//! Why a call is refused. Every case has a number, by which programs and hosts speak of it.
ghost use Rattle.std.specs.Prelude.{◌≡◌, Some};
ghost use Rattle.systems.specs.Refusals.{number_of, refused_text};

use std::error::Error;
use std::fmt;

/// The reason of a refusal that comes from the input; the value of a case is its number.
#[derive(Clone, Copy, PartialEq, Eq, Debug)]
pub enum Refusal {
    /// The size is not from 1 to 6.
    SizeOutOfRange = 1,
    /// The system has no such place.
    PlaceOutOfRange = 2,
    /// An end is below -65,536 or above 65,536.
    EndOutOfRange = 3,
    /// The low end is above the high end.
    EndsOutOfOrder = 4,
    /// The job ends before its last record does.
    JobEndsEarly = 9,
    /// A record's mark is none that may stand there.
    MarkNotAllowed = 10,
    /// A place is not above the place before it.
    PlaceNotRising = 11,
    /// An entry has both ends 0, which a job leaves out.
    EntryIsZero = 12,
    /// Bytes follow the end mark.
    BytesAfterEnd = 13,
    /// The buffer has no room for the job.
    BufferTooShort = 14,
}

impl Refusal {
    /// The number of the case.
    pub fn number(self) -> u32
        ensures { result ≡ number_of self }
    {
        self as u32
    }
}

/// A refusal prints as `refused 9`, with its own number.
impl fmt::Display for Refusal {
    ghost output = { λ r. Some (refused_text (number_of r)) };

    fn fmt<W: fmt::Write>(&self, f: &mut fmt::Formatter<W>) -> fmt::Result {
        write!(f, "refused {}", self.number())
    }
}

impl Error for Refusal {}
