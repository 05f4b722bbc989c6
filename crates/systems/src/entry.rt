//! The entries of a system.
ghost use Rattle.std.specs.Prelude.{pos, neg_ℤ, ◌≤ℤ◌};

mod methods;

/// The greatest end of an entry; the least is `-MOST`.
pub const MOST: i32 = 65536;

// No type in common with an interval of figures: an entry's ends have 32 bits, as in a job, a wrong pair of ends has a number, and all
// arithmetic is on figures; two ends are all that one type for both would hold.
/// A number of a system, known to lie between two whole numbers, its ends.
#[derive(Clone, Copy, PartialEq, Eq, Debug)]
pub struct Entry {
    low: i32,
    high: i32,
    ghost ordered: { low ≤ℤ high },
    ghost above: { neg_ℤ (pos 65536) ≤ℤ low },
    ghost below: { high ≤ℤ pos 65536 },
}
