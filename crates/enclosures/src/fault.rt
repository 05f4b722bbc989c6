//! Why a method refuses a system.
ghost use Rattle.std.specs.Prelude.{◌≡◌, Some};
ghost use Rattle.systems.specs.Refusals.{refused_text};
ghost use Rattle.enclosures.specs.Verdicts.{fault_of};

use grains::interval::ArithmeticError;
use std::error::Error;
use std::fmt;

/// A method's refusal. 6: a pivot contains 0; 7: a product, a difference or a quotient leaves the span; 8: a diagonal entry does not
/// outweigh the rest of its row.
// A number and no enum: a maker's method has numbers of its own.
#[derive(Clone, Copy, PartialEq, Eq, Debug)]
pub struct Fault {
    pub number: u32,
}

impl From<ArithmeticError> for Fault {
    ghost from_gives = { λ e r. r ≡ fault_of e };

    fn from(error: ArithmeticError) -> Fault {
        match error {
            ArithmeticError::DivisorContainsZero => Fault { number: 6 },
            ArithmeticError::OutsideSpan => Fault { number: 7 },
        }
    }
}

/// A fault prints as `refused 6`, with its own number.
impl fmt::Display for Fault {
    ghost output = { λ f. Some (refused_text f.number) };

    fn fmt<W: fmt::Write>(&self, f: &mut fmt::Formatter<W>) -> fmt::Result {
        write!(f, "refused {}", self.number)
    }
}

impl Error for Fault {}
