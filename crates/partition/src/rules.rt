//! The two built rules: the widest entry, and the entry whose width weighs most.
ghost use Rattle.std.specs.Prelude.{◌≡◌, ℕ, ◌^◌, ◌<◌, ◌≤◌, List, map, ℤ, pos, ◌≤ℤ◌, unsigned_abs};
ghost use Rattle.algebra.specs.Ends.{Ends};
ghost use Rattle.grains.specs.Arithmetic.{ends_of};
ghost use Rattle.systems.specs.Entries.{ends_of as entry_ends};
ghost use Rattle.systems.specs.Tables.{Table, table_of, ends_at, places_of};
ghost use Rattle.enclosures.specs.RowSums.{magnitude};
ghost use Rattle.partition.specs.Choosing.{wide_at, width, leverage, width_at, weight_at, best_below, widest_of, heaviest_of};
ghost use Rattle.partition.specs.Scanning.{heavier_of};
ghost use Rattle.partition.specs.Scans.{none_below, below_none, place_below};

use crate::rule::Rule;
use grains::interval::{GRAINS, Interval};
use systems::entry::Entry;
use systems::system::System;

// How far the ends of an entry are apart.
#[tactic(auto, unfolding(crate::specs::Choosing::width))]
fn width_of(entry: Entry) -> i64
    ensures value { result ≡ width (entry_ends entry) }
    ensures low { pos 0 ≤ℤ result }
    ensures bound { unsigned_abs result ≤ 2 ^ 17 }
{
    i64::from(entry.high()) - i64::from(entry.low())
}

// The greatest absolute value in an interval. That of an entry, in row sums, is as short; one for both would speak of two plain numbers and
// owe their bounds at each call.
#[tactic(auto, unfolding(enclosures::specs::RowSums::magnitude))]
fn magnitude_of(interval: Interval) -> i64
    ensures value { result ≡ magnitude (ends_of interval) }
    ensures bound { unsigned_abs result ≤ 2 ^ 31 }
{
    interval.low().abs().max(interval.high().abs())
}

// What one unit of width at a place weighs.
fn leverage_of(size: usize, row: &[Interval], place: usize) -> i64
    requires { size ≤ 6 }
    ensures value { result ≡ leverage size (map ends_of row.now) place }
    ensures bound { unsigned_abs result ≤ 2 ^ 31 }
{
    let column = place % (size + 1);
    if column >= size {
        return GRAINS;
    }
    let interval = row.get(column).copied().unwrap_or(Interval::zero());
    magnitude_of(interval)
}

// A way to weigh the entries of a system, which it gets with the row as `choose` does.
trait Weigh {
    ghost weight: { Self → Table → List Ends → ℕ → ℤ };

    fn weigh(&self, system: &System, row: &[Interval], place: usize) -> i64
        ensures { result ≡ weight self.now (table_of system.now) (map ends_of row.now) place };
}

// The best place so far, and its weight.
#[derive(Clone, Copy)]
struct Best {
    place: usize,
    weight: i64,
}

// The best place so far or a new one, where that outweighs it.
fn heavier(best: Option<Best>, place: usize, weight: i64) -> Option<Best>
    ensures { result ≡ heavier_of best place weight }
{
    match best {
        Some(so_far) if weight <= so_far.weight => best,
        _ => Some(Best { place, weight }),
    }
}

// The wide place of the greatest weight, the lowest among equals.
fn scan<W: Weigh>(weigher: &W, system: &System, row: &[Interval]) -> Option<usize>
    ensures { result ≡ best_below (wide_at (table_of system.now)) (W.Weigh.weight weigher.now (table_of system.now) (map ends_of row.now)) (places_of (table_of system.now).size) }
{
    let mut best = None;
    for (place, entry) in system.entries().iter().enumerate() {
        if entry.is_wide() {
            best = heavier(best, place, weigher.weigh(system, row, place));
        }
    }
    best.map(|found| found.place)
}

// The two rules are alike but for their definition and weight. One impl over both would answer by the scan, and not by the definitions that the
// laws unfold and the theorem names.
/// The entry of the greatest width; among equals the one at the lowest place.
#[derive(Clone, Copy)]
pub struct Widest;

impl Weigh for Widest {
    ghost weight = { λ _. width_at };

    fn weigh(&self, system: &System, _row: &[Interval], place: usize) -> i64 {
        width_of(system.entry_or_zero(place))
    }
}

impl Rule for Widest {
    ghost answer = { λ _. widest_of };

    ghost none = { unfold widest_of in λ r t row thin. none_below (wide_at t) (width_at t row) (places_of t.size) thin };

    ghost only = { unfold widest_of in λ r t row e. below_none (wide_at t) (width_at t row) (places_of t.size) e };

    ghost place = { unfold widest_of in λ r t row k e. place_below (width_at t row) t k e };

    #[tactic(auto, unfolding(crate::specs::Choosing::widest_of))]
    fn choose(&self, system: &System, row: &[Interval]) -> Option<usize> {
        scan(self, system, row)
    }
}

/// The entry of the greatest weight: its width times the greatest absolute value in the interval of its component, or times 16,384
/// for a right-hand entry; among equals the one at the lowest place.
#[derive(Clone, Copy)]
pub struct Heaviest;

impl Weigh for Heaviest {
    ghost weight = { λ _. weight_at };

    fn weigh(&self, system: &System, row: &[Interval], place: usize) -> i64 {
        width_of(system.entry_or_zero(place)) * leverage_of(system.size(), row, place)
    }
}

impl Rule for Heaviest {
    ghost answer = { λ _. heaviest_of };

    ghost none = { unfold heaviest_of in λ r t row thin. none_below (wide_at t) (weight_at t row) (places_of t.size) thin };

    ghost only = { unfold heaviest_of in λ r t row e. below_none (wide_at t) (weight_at t row) (places_of t.size) e };

    ghost place = { unfold heaviest_of in λ r t row k e. place_below (weight_at t row) t k e };

    #[tactic(auto, unfolding(crate::specs::Choosing::heaviest_of))]
    fn choose(&self, system: &System, row: &[Interval]) -> Option<usize> {
        scan(self, system, row)
    }
}
