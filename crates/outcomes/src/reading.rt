//! What the calls of a search answer.
ghost use Rattle.std.specs.Prelude.{◌≡◌, Some};
ghost use Rattle.outcomes.specs.Refusals.{stop_number};
ghost use Rattle.outcomes.specs.Texts.{stop_word};

use std::fmt;

/// A search as it stands: its low and its high figure in grains, how many records wait, how many splits were made, and whether it is
/// settled.
#[derive(Clone, Copy, PartialEq, Eq, Debug)]
pub struct Reading {
    pub low: i64,
    pub high: i64,
    pub waiting: usize,
    pub splits: u64,
    pub settled: bool,
}

/// Why a run ended; the value of a case is its number.
#[derive(Clone, Copy, PartialEq, Eq, Debug)]
pub enum Stop {
    /// The search is settled.
    Settled = 1,
    /// 512 records wait.
    Full = 2,
    /// The budget is used.
    Budget = 3,
}

impl Stop {
    /// The number of the case.
    pub fn number(self) -> u32
        ensures { result ≡ stop_number self }
    {
        self as u32
    }
}

impl fmt::Display for Stop {
    ghost output = { λ stop. Some (stop_word stop) };

    fn fmt<W: fmt::Write>(&self, f: &mut fmt::Formatter<W>) -> fmt::Result {
        f.write_str(match self {
            Stop::Settled => "settled",
            Stop::Full => "full",
            Stop::Budget => "budget",
        })
    }
}

/// What a run answers: the reading at its end, the splits it made, and why it ended.
#[derive(Clone, Copy, PartialEq, Eq, Debug)]
pub struct Report {
    pub reading: Reading,
    pub made: u32,
    pub stop: Stop,
}
