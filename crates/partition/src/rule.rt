//! What a splitting rule is, and what it owes. A maker's own rule implements this trait.
ghost use Rattle.std.specs.Prelude.{◌≡◌, map};
ghost use Rattle.grains.specs.Arithmetic.{ends_of};
ghost use Rattle.systems.specs.Tables.{table_of};
ghost use Rattle.partition.specs.Choosing.{Choice, NoneWhenThin, ThinWhenNone, PlaceWhenSome};

use grains::interval::Interval;
use systems::system::System;

/// A choice of the entry that a search fixes next.
pub trait Rule {
    // What the rule answers: a function of the system's table and of the row.
    ghost answer: { Self → Choice };

    /// The place of the entry to fix, or none where no entry is wide. Every slice is taken as a row: a missing interval counts as [0, 0].
    fn choose(&self, system: &System, row: &[Interval]) -> Option<usize>
        ensures { result ≡ answer self.now (table_of system.now) (map ends_of row.now) };

    // It answers none where no entry is wide,
    ghost none: { (r : Self) → NoneWhenThin (answer r) };

    // and only there;
    ghost only: { (r : Self) → ThinWhenNone (answer r) };

    // else the place of a wide entry.
    ghost place: { (r : Self) → PlaceWhenSome (answer r) };
}
