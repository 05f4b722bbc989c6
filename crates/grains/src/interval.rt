//! Intervals of figures, and why an operation on them may have no answer.
ghost use Rattle.std.specs.Prelude.{pos, neg_ℤ, ◌≤ℤ◌};

mod operations;

/// How many grains make one.
pub const GRAINS: i64 = 16384;

/// The span's upper end, in grains; its lower end is `-LIMIT`.
pub const LIMIT: i64 = 2147483648;

/// All figures from a low end to a high end, both in the span. [1, 3] is held as 16384 and 49152 grains.
#[derive(Clone, Copy, PartialEq, Eq, Debug)]
pub struct Interval {
    low: i64,
    high: i64,
    ghost ordered: { low ≤ℤ high },
    ghost above: { neg_ℤ (pos 2147483648) ≤ℤ low },
    ghost below: { high ≤ℤ pos 2147483648 },
}

/// Why an operation has no answer.
#[derive(Clone, Copy, PartialEq, Eq, Debug)]
pub enum ArithmeticError {
    /// The divisor contains 0.
    DivisorContainsZero,
    /// An end of the answer lies outside the span.
    OutsideSpan,
}
