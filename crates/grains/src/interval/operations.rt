//! The operations on intervals.
ghost use Rattle.std.specs.Prelude.{◌≡◌, slice_index_or, ◌^◌, ◌<◌, ◌≤◌, pos, ◌-ℤ◌, ◌≤ℤ◌, unsigned_abs};
ghost use Rattle.algebra.specs.Ends.{from_to};
ghost use Rattle.algebra.specs.Order.{floor_quot, ceil_quot};
ghost use Rattle.std.specs.Option.{option_map};
ghost use Rattle.grains.specs.Arithmetic.{Figure, ends_of, answer_of, interval_of, in_span, times, least_of, greatest_of, least_product, greatest_product, product_of, difference_of, contains_zero, quotient_down, quotient_up, least_quotient, greatest_quotient, quotient_of, common_of};

use crate::interval::{ArithmeticError, GRAINS, Interval, LIMIT};

// `a / by`, rounded towards minus infinity.
#[tactic(auto, unfolding(algebra::specs::Order::floor_quot, algebra::specs::Order::floor_div))]
fn floor_div(a: i64, by: i64) -> i64
    requires nonzero { 0 < unsigned_abs by }
    requires fits { unsigned_abs a < 2 ^ 63 }
    requires by_fits { unsigned_abs by < 2 ^ 63 }
    ensures value { result ≡ floor_quot a by }
    ensures bound { unsigned_abs result ≤ unsigned_abs a }
{
    if by < 0 {
        (-a).div_euclid(-by)
    } else {
        a.div_euclid(by)
    }
}

// `a / by`, rounded towards plus infinity.
#[tactic(auto, unfolding(algebra::specs::Order::ceil_quot))]
fn ceil_div(a: i64, by: i64) -> i64
    requires nonzero { 0 < unsigned_abs by }
    requires fits { unsigned_abs a < 2 ^ 63 }
    requires by_fits { unsigned_abs by < 2 ^ 63 }
    ensures { result ≡ ceil_quot a by }
{
    -floor_div(-a, by)
}

// The interval from `low` to `high`, where both are in the span.
#[tactic(auto, unfolding(crate::specs::Arithmetic::in_span))]
fn in_span(low: i64, high: i64) -> Result<Interval, ArithmeticError>
    requires { low ≤ℤ high }
    ensures { answer_of result ≡ in_span low high }
{
    if -LIMIT <= low && high <= LIMIT {
        Ok(Interval { low, high })
    } else {
        Err(ArithmeticError::OutsideSpan)
    }
}

// The product of two figures: it fits, since both are in the span.
fn multiply(a: i64, b: i64) -> i64
    requires first { Figure a }
    requires second { Figure b }
    ensures value { result ≡ times a b }
    ensures bound { unsigned_abs result ≤ 2 ^ 62 }
{
    a * b
}

// Two functions, as there are two of `min` and `max`: one for both would negate four numbers and the answer.
#[tactic(auto, unfolding(crate::specs::Arithmetic::least_of))]
fn least_of(values: [i64; 4]) -> i64
    ensures { result ≡ least_of (slice_index_or values 0 (pos 0)) (slice_index_or values 1 (pos 0)) (slice_index_or values 2 (pos 0)) (slice_index_or values 3 (pos 0)) }
{
    let [a, b, c, d] = values;
    a.min(b).min(c.min(d))
}

#[tactic(auto, unfolding(crate::specs::Arithmetic::greatest_of))]
fn greatest_of(values: [i64; 4]) -> i64
    ensures { result ≡ greatest_of (slice_index_or values 0 (pos 0)) (slice_index_or values 1 (pos 0)) (slice_index_or values 2 (pos 0)) (slice_index_or values 3 (pos 0)) }
{
    let [a, b, c, d] = values;
    a.max(b).max(c.max(d))
}

// What an operation makes of each end of an interval and each end of another.
fn corners<F: Fn(i64, i64) -> i64>(x: Interval, y: Interval, of: F) -> [i64; 4]
    requires low_low { F.pre of x.low y.low }
    requires low_high { F.pre of x.low y.high }
    requires high_low { F.pre of x.high y.low }
    requires high_high { F.pre of x.high y.high }
    ensures low_low { F.post of x.low y.low (slice_index_or result 0 (pos 0)) }
    ensures low_high { F.post of x.low y.high (slice_index_or result 1 (pos 0)) }
    ensures high_low { F.post of x.high y.low (slice_index_or result 2 (pos 0)) }
    ensures high_high { F.post of x.high y.high (slice_index_or result 3 (pos 0)) }
{
    [
        of(x.low, y.low),
        of(x.low, y.high),
        of(x.high, y.low),
        of(x.high, y.high),
    ]
}

impl Interval {
    /// The interval from `low` to `high`, or none where they are out of order or outside the span.
    #[tactic(auto, unfolding(crate::specs::Arithmetic::interval_of))]
    pub fn new(low: i64, high: i64) -> Option<Interval>
        ensures { option_map ends_of result ≡ interval_of low high }
    {
        if low <= high {
            in_span(low, high).ok()
        } else {
            None
        }
    }

    /// The interval that holds 0 alone.
    pub fn zero() -> Interval
        ensures { ends_of result ≡ from_to (pos 0) (pos 0) }
    {
        Interval { low: 0, high: 0 }
    }

    /// The low end, in grains.
    pub fn low(self) -> i64
        ensures { result ≡ (ends_of self).low }
    {
        self.low
    }

    /// The high end, in grains.
    pub fn high(self) -> i64
        ensures { result ≡ (ends_of self).high }
    {
        self.high
    }

    /// Whether 0 lies in the interval, ends included.
    #[tactic(auto, unfolding(crate::specs::Arithmetic::contains_zero))]
    pub fn contains_zero(self) -> bool
        ensures { result ≡ contains_zero (ends_of self) }
    {
        self.low <= 0 && 0 <= self.high
    }

    /// From low minus high to high minus low. [1, 3] - [2, 4] is [-3, 1].
    #[tactic(auto, unfolding(crate::specs::Arithmetic::difference_of))]
    pub fn difference(self, other: Interval) -> Result<Interval, ArithmeticError>
        ensures { answer_of result ≡ difference_of (ends_of self) (ends_of other) }
    {
        let low = self.low - other.high;
        let high = self.high - other.low;
        in_span(low, high)
    }

    /// From the least of the four products of ends, rounded down, to the greatest, rounded up. [-2, 3] * [1, 5] is [-10, 15].
    pub fn product(self, other: Interval) -> Result<Interval, ArithmeticError>
        ensures { answer_of result ≡ product_of (ends_of self) (ends_of other) }
    {
        let products = corners(self, other, |a, b| multiply(a, b));
        let least = least_of(products);
        let greatest = greatest_of(products);
        in_span(floor_div(least, GRAINS), ceil_div(greatest, GRAINS))
    }

    /// From the least of the four quotients of ends, rounded down, to the greatest, rounded up. 1 / 3 is from 5461 to 5462 grains.
    #[tactic(auto, unfolding(crate::specs::Arithmetic::quotient_of))]
    pub fn quotient(self, divisor: Interval) -> Result<Interval, ArithmeticError>
        ensures { answer_of result ≡ quotient_of (ends_of self) (ends_of divisor) }
    {
        if divisor.contains_zero() {
            return Err(ArithmeticError::DivisorContainsZero);
        }
        let low = least_of(corners(self, divisor, |a, by| floor_div(multiply(a, GRAINS), by)));
        let high = greatest_of(corners(self, divisor, |a, by| ceil_div(multiply(a, GRAINS), by)));
        in_span(low, high)
    }

    /// The figures that lie in both intervals, or none.
    #[tactic(auto, unfolding(crate::specs::Arithmetic::common_of))]
    pub fn common(self, other: Interval) -> Option<Interval>
        ensures { option_map ends_of result ≡ common_of (ends_of self) (ends_of other) }
    {
        let low = self.low.max(other.low);
        let high = self.high.min(other.high);
        if low <= high {
            Some(Interval { low, high })
        } else {
            None
        }
    }
}

/// [0, 0].
impl Default for Interval {
    ghost is_default = { λ x. ends_of x ≡ from_to (pos 0) (pos 0) };

    fn default() -> Interval {
        Interval::zero()
    }
}
