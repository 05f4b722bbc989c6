//! The equations of a system: its rows.
ghost use Rattle.std.specs.Prelude.{◌≡◌, ◌<◌, ◌≤◌, map, length};
ghost use Rattle.std.specs.List.{range_with_len};
ghost use Rattle.systems.specs.Entries.{ends_of};
ghost use Rattle.systems.specs.Tables.{table_of};
ghost use Rattle.enclosures.specs.RowSums.{entry_in};

use systems::entry::Entry;
use systems::system::System;

/// A row of a system, counted from 0.
#[derive(Clone, Copy)]
pub struct Equation<'a> {
    pub system: &'a System,
    pub row: usize,
    ghost there: { row < (table_of system.now).size },
    ghost few: { row < 6 },
}

impl<'a> Equation<'a> {
    // The matrix entries of the row.
    pub fn coefficients(&self) -> &'a [Entry]
        ensures few { length result.now ≤ 6 }
        ensures value { map ends_of result.now ≡ map (entry_in (table_of self.now.system.now) self.now.row) (range_with_len 0 (table_of self.now.system.now).size) }
    {
        let n = self.system.size();
        let start = self.row * (n + 1);
        &self.system.entries()[start..start + n]
    }

    // The matrix entry on the diagonal.
    pub fn diagonal(&self) -> Entry
        ensures { ends_of result ≡ entry_in (table_of self.now.system.now) self.now.row self.now.row }
    {
        let n = self.system.size();
        self.system.entry_or_zero(self.row * (n + 1) + self.row)
    }

    // The right-hand entry.
    pub fn right(&self) -> Entry
        ensures { ends_of result ≡ entry_in (table_of self.now.system.now) self.now.row (table_of self.now.system.now).size }
    {
        let n = self.system.size();
        self.system.entry_or_zero(self.row * (n + 1) + n)
    }
}
