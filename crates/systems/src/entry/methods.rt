//! How entries are made and read.
ghost use Rattle.std.specs.Prelude.{◌≡◌, pos, neg_ℤ, ◌≤ℤ◌};
ghost use Rattle.algebra.specs.Ends.{from_to};
ghost use Rattle.systems.specs.Entries.{ends_of, entry_answer, entry_of, is_wide, middle, thin};

use crate::entry::{Entry, MOST};
use crate::refusal::Refusal;

// The entry that holds one number alone.
fn thin(end: i32) -> Entry
    requires above { neg_ℤ (pos 65536) ≤ℤ end }
    requires below { end ≤ℤ pos 65536 }
    ensures { ends_of result ≡ thin end }
{
    Entry {
        low: end,
        high: end,
    }
}

impl Entry {
    /// The entry from `low` to `high`: refused with 3 where an end is out of range, then with 4 where they are out of order.
    #[tactic(auto, unfolding(crate::specs::Entries::entry_of))]
    pub fn new(low: i32, high: i32) -> Result<Entry, Refusal>
        ensures { entry_answer result ≡ entry_of low high }
    {
        let range = -MOST..=MOST;
        if !range.contains(&low) || !range.contains(&high) {
            return Err(Refusal::EndOutOfRange);
        }
        if low > high {
            return Err(Refusal::EndsOutOfOrder);
        }
        Ok(Entry { low, high })
    }

    /// The entry [0, 0].
    pub fn zero() -> Entry
        ensures { ends_of result ≡ from_to (pos 0) (pos 0) }
    {
        thin(0)
    }

    /// The low end.
    pub fn low(self) -> i32
        ensures { result ≡ (ends_of self).low }
    {
        self.low
    }

    /// The high end.
    pub fn high(self) -> i32
        ensures { result ≡ (ends_of self).high }
    {
        self.high
    }

    /// Whether the ends differ.
    #[tactic(auto, unfolding(crate::specs::Entries::is_wide))]
    pub fn is_wide(self) -> bool
        ensures { result ≡ is_wide (ends_of self) }
    {
        self.low < self.high
    }

    /// The entry that is thin at half the sum of the ends, rounded down. The midpoint of [-3, 0] is -2.
    #[tactic(auto, unfolding(crate::specs::Entries::middle, algebra::specs::Order::floor_div))]
    pub fn midpoint(self) -> Entry
        ensures { ends_of result ≡ middle (ends_of self) }
    {
        thin((self.low + self.high).div_euclid(2))
    }

    /// The entry that is thin at the low end.
    pub fn at_low(self) -> Entry
        ensures { ends_of result ≡ thin (ends_of self).low }
    {
        thin(self.low)
    }

    /// The entry that is thin at the high end.
    pub fn at_high(self) -> Entry
        ensures { ends_of result ≡ thin (ends_of self).high }
    {
        thin(self.high)
    }
}
