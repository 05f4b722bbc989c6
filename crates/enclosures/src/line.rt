//! The working rows of elimination.
ghost use Rattle.std.specs.Prelude.{◌≡◌, ◌≤◌, map, length, drop};
ghost use Rattle.grains.specs.Arithmetic.{ends_of};
ghost use Rattle.systems.specs.Tables.{table_of};
ghost use Rattle.enclosures.specs.Elimination.{lead, row_of};
ghost use Rattle.enclosures.specs.Working.{viewed};

use crate::equation::Equation;
use crate::scaling::in_grains;
use arrayvec::ArrayVec;
use grains::interval::Interval;

/// A row of working intervals: the coefficients of the unknowns that are left, and the right-hand side.
#[derive(Drop)]
pub struct Line {
    pub coefficients: ArrayVec<Interval, 6>,
    pub right: Interval,
}

// A line of no unknown.
impl Default for Line {
    fn default() -> Line {
        Line {
            coefficients: ArrayVec::new(),
            right: Interval::zero(),
        }
    }
}

impl Line {
    // A row of a system in grains.
    pub fn new(equation: &Equation<'_>) -> Line
        ensures { viewed result ≡ row_of (table_of equation.now.system.now) equation.now.row }
    {
        // A loop: a push into room of six cannot fail, as collecting could.
        let mut coefficients = ArrayVec::new();
        for entry in equation.coefficients() {
            coefficients.push(in_grains(*entry));
        }
        Line {
            coefficients,
            right: in_grains(equation.right()),
        }
    }

    // The coefficient of the first unknown that is left; [0, 0] where none is.
    pub fn lead(&self) -> Interval
        ensures { ends_of result ≡ lead (viewed self.now) }
    {
        self.coefficients
            .as_slice()
            .first()
            .copied()
            .unwrap_or(Interval::zero())
    }

    // The coefficients of the other unknowns.
    pub fn rest(&self) -> &[Interval]
        ensures value { map ends_of result.now ≡ drop 1 (viewed self.now).coefficients }
        ensures few { length result.now ≤ 6 }
    {
        self.coefficients.as_slice().get(1..).unwrap_or(&[])
    }
}
