//! Entries in grains.
ghost use Rattle.std.specs.Prelude.{◌≡◌, pos, ◌*ℤ◌};
ghost use Rattle.grains.specs.Arithmetic.{ends_of};
ghost use Rattle.systems.specs.Entries.{ends_of as entry_ends};
ghost use Rattle.systems.specs.Tables.{ends_at, table_of};
ghost use Rattle.enclosures.specs.Elimination.{in_grains};

use grains::interval::{GRAINS, Interval};
use systems::entry::Entry;
use systems::system::System;

// An end in grains.
fn scaled(end: i32) -> i64
    ensures { result ≡ end *ℤ pos 16384 }
{
    i64::from(end) * GRAINS
}

/// An entry in grains. [2, 4] is from 32768 to 65536.
pub fn in_grains(entry: Entry) -> Interval
    ensures { ends_of result ≡ in_grains (entry_ends entry) }
{
    Interval::new(scaled(entry.low()), scaled(entry.high())).unwrap()
}

/// The entry at a place in grains; [0, 0] where there is no such place.
pub fn in_grains_at(system: &System, place: usize) -> Interval
    ensures { ends_of result ≡ in_grains (ends_at (table_of system.now) place) }
{
    in_grains(system.entry_or_zero(place))
}
