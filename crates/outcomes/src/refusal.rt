//! Why a call of a search is refused.
ghost use Rattle.std.specs.Prelude.{◌≡◌, Some};
ghost use Rattle.outcomes.specs.declared.refusal.SearchRefusal.TheVariants.{ByMethod};
ghost use Rattle.outcomes.specs.Refusals.{number_of};
ghost use Rattle.outcomes.specs.Texts.{refusal_text};

use enclosures::fault::Fault;
use std::error::Error;
use std::fmt;

/// Why a call of a search is refused.
#[derive(Clone, Copy, PartialEq, Eq, Debug)]
pub enum SearchRefusal {
    /// 5: the component is not from 1 to the size.
    ComponentOutOfRange,
    /// 21: the search is not started.
    NotStarted,
    /// 22: the search is started already.
    AlreadyStarted,
    /// 23: the search is settled.
    Settled,
    /// 24: 512 records wait.
    Full,
    /// The method's own fault, with its number.
    ByMethod(Fault),
}

impl From<Fault> for SearchRefusal {
    ghost from_gives = { λ f r. r ≡ ByMethod f };

    fn from(fault: Fault) -> SearchRefusal {
        SearchRefusal::ByMethod(fault)
    }
}

impl SearchRefusal {
    /// The number of the case.
    pub fn number(self) -> u32
        ensures { result ≡ number_of self }
    {
        // A match, where other refusals have their numbers as values: that of `ByMethod` is the fault's.
        match self {
            SearchRefusal::ComponentOutOfRange => 5,
            SearchRefusal::NotStarted => 21,
            SearchRefusal::AlreadyStarted => 22,
            SearchRefusal::Settled => 23,
            SearchRefusal::Full => 24,
            SearchRefusal::ByMethod(fault) => fault.number,
        }
    }
}

impl fmt::Display for SearchRefusal {
    ghost output = { λ refusal. Some (refusal_text refusal) };

    fn fmt<W: fmt::Write>(&self, f: &mut fmt::Formatter<W>) -> fmt::Result {
        let number = self.number();
        write!(f, "refused {number}")
    }
}

impl Error for SearchRefusal {}
