//! Row sums: one bound for all components, from how far each diagonal entry outweighs the rest of its row.
ghost use Rattle.std.specs.Prelude.{◌≡◌, pos, neg_ℤ};
ghost use Rattle.std.specs.Result.{result_map_both};
ghost use Rattle.algebra.specs.Ends.{from_to};
ghost use Rattle.algebra.specs.Order.{Within};
ghost use Rattle.grains.specs.Arithmetic.{ends_of};
ghost use Rattle.systems.specs.Entries.{ends_of as entry_ends};
ghost use Rattle.systems.specs.Tables.{table_of};
ghost use Rattle.enclosures.specs.RowSums.{absolute as absolute_of, magnitude as magnitude_of, mignitude as mignitude_of, excess_of, bound_of, greatest_bound, row_sums_of};
ghost use Rattle.enclosures.specs.RowSumsLemmas.{row_sums_shaped, row_sums_bounds, row_sums_narrow};
ghost use Rattle.enclosures.specs.Bounds.{solvable_from, agreed_from, enclosed_from};

use crate::enclosure::Enclosure;
use crate::equation::Equation;
use crate::fault::Fault;
use grains::interval::{GRAINS, Interval};
use systems::entry::Entry;
use systems::system::System;

// The least excess that a row needs.
const LEAST: i64 = 1;

// The absolute value of an end.
fn absolute(end: i32) -> i64
    ensures { result ≡ absolute_of end }
{
    i64::from(end).abs()
}

// The greatest absolute value in an entry.
#[tactic(auto, unfolding(crate::specs::RowSums::magnitude))]
fn magnitude(entry: Entry) -> i64
    ensures value { result ≡ magnitude_of (entry_ends entry) }
    ensures small { Within (pos 0) (pos 65536) result }
{
    absolute(entry.low()).max(absolute(entry.high()))
}

// The least absolute value in an entry.
fn mignitude(entry: Entry) -> i64
    ensures value { result ≡ mignitude_of (entry_ends entry) }
    ensures small { Within (pos 0) (pos 65536) result }
{
    i64::from(entry.low()).max(-i64::from(entry.high())).max(0)
}

// The mignitude of the diagonal entry, less the magnitudes of the row's other matrix entries.
fn excess(equation: &Equation<'_>) -> i64
    ensures value { result ≡ excess_of (table_of equation.now.system.now) equation.now.row }
    ensures small { Within (neg_ℤ (pos 393216)) (pos 65536) result }
{
    let mut g = mignitude(equation.diagonal());
    // A loop: what keeps a sum of signed numbers from overflowing is an invariant, and a chain has none.
    for (column, entry) in equation.coefficients().iter().enumerate() {
        if column != equation.row {
            g -= magnitude(*entry);
        }
    }
    g
}

// How far from 0 a component can lie at most, in grains.
#[derive(Clone, Copy, PartialEq, Eq, PartialOrd, Ord)]
struct Radius {
    grains: i64,
    ghost within: { Within (pos 0) (pos 1073741824) grains },
}

impl Radius {
    // All figures up to the radius, on both sides of 0.
    fn around_zero(self) -> Interval
        ensures { ends_of result ≡ from_to (neg_ℤ self.grains) self.grains }
    {
        Interval::new(-self.grains, self.grains).unwrap()
    }
}

// What a row bounds: the magnitude of the right side over the excess, rounded up to a whole grain. The division stands here and is not taken
// from the intervals: theirs are quotients of figures, and as a public call it would ask for its divisor.
fn bound(equation: &Equation<'_>) -> Result<Radius, Fault>
    ensures { result_map_both (λ r. r.grains) (λ e. e) result ≡ bound_of (table_of equation.now.system.now) equation.now.row }
{
    let g = excess(equation);
    if g < LEAST {
        return Err(Fault { number: 8 });
    }
    let size = magnitude(equation.right());
    Ok(Radius {
        grains: -(-(size * GRAINS)).div_euclid(g),
    })
}

// The greatest of the rows' bounds.
fn greatest_bound(system: &System) -> Result<Radius, Fault>
    ensures { result_map_both (λ r. r.grains) (λ e. e) result ≡ greatest_bound (table_of system.now) }
{
    // By number, which is what makes an equation of a system.
    let mut alpha = Radius { grains: 0 };
    for row in 0..system.size() {
        let next = bound(&Equation { system, row })?;
        alpha = alpha.max(next);
    }
    Ok(alpha)
}

/// Row sums.
#[derive(Clone, Copy)]
pub struct RowSums;

impl Enclosure for RowSums {
    ghost meaning = { λ _. row_sums_of };

    ghost shaped = { λ m. row_sums_shaped };

    ghost solvable = { λ m. solvable_from row_sums_of row_sums_bounds };

    ghost agreed = { λ m. agreed_from row_sums_of row_sums_bounds };

    ghost enclosed = { λ m. enclosed_from row_sums_of row_sums_bounds };

    ghost narrowing = { λ m. row_sums_narrow };

    /// Writes one interval around 0 into the first places of the row, one for each row of the system. A refusal, 8 for a row
    /// whose diagonal entry does not outweigh the others, changes none of the six.
    fn enclose(&self, system: &System, row: &mut [Interval; 6]) -> Result<(), Fault> {
        let alpha = greatest_bound(system)?;
        row[..system.size()].fill(alpha.around_zero());
        Ok(())
    }
}
