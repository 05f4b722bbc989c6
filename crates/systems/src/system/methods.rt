//! What can be read off a system.
ghost use Rattle.std.specs.Prelude.{◌≡◌, ◌≤◌, map, length};
ghost use Rattle.std.specs.Option.{option_map};
ghost use Rattle.systems.specs.Boxes.{fixed_entry, box_of};
ghost use Rattle.systems.specs.Entries.{ends_of};
ghost use Rattle.systems.specs.Tables.{table_of, tabled, entry_at, places_of, wide_entries, midpoint_of, ends_at};

use crate::draft::{Draft, MOST_PLACES};
use crate::entry::Entry;
use crate::marks::has_mark;
use crate::size::Size;
use crate::system::System;

// The entry at a place, thin at an end where the marks say so.
fn fixed_entry(entry: Entry, fixed: u64, ends: u64, place: usize) -> Entry
    ensures { ends_of result ≡ fixed_entry (record { fixed = fixed; ends = ends }) place (ends_of entry) }
{
    if !has_mark(fixed, place) {
        entry
    } else if has_mark(ends, place) {
        entry.at_high()
    } else {
        entry.at_low()
    }
}

impl System {
    // The system of a size with these entries.
    fn of(size: Size, entries: [Entry; MOST_PLACES]) -> System
        requires { length entries ≡ 42 }
        ensures { table_of result ≡ tabled size.rows entries }
    {
        System {
            draft: Draft { size, entries },
        }
    }

    /// The number of rows, from 1 to 6.
    pub fn size(&self) -> usize
        ensures value { result ≡ (table_of self.now).size }
        ensures some { 1 ≤ result }
        ensures few { result ≤ 6 }
    {
        self.draft.size()
    }

    /// The number of places: each row has one more entry than there are rows.
    pub fn places(&self) -> usize
        ensures { result ≡ places_of (table_of self.now).size }
    {
        self.draft.places()
    }

    /// The entries, place by place.
    pub fn entries(&self) -> &[Entry]
        ensures { map ends_of result.now ≡ (table_of self.now).entries }
    {
        self.draft.entries()
    }

    /// The entry at a place, or none where there is no such place.
    pub fn entry(&self, place: usize) -> Option<Entry>
        ensures { option_map ends_of result ≡ entry_at (table_of self.now) place }
    {
        self.draft.entry(place)
    }

    /// The entry at a place; [0, 0] where there is no such place.
    pub fn entry_or_zero(&self, place: usize) -> Entry
        ensures { ends_of result ≡ ends_at (table_of self.now) place }
    {
        self.entry(place).unwrap_or(Entry::zero())
    }

    /// How many entries are wide.
    pub fn wide_entries(&self) -> usize
        ensures { result ≡ wide_entries (table_of self.now) }
    {
        self.entries()
            .iter()
            .filter(|entry| entry.is_wide())
            .count()
    }

    /// The system in which every entry is thin at its midpoint.
    pub fn midpoint(&self) -> System
        ensures { table_of result ≡ midpoint_of (table_of self.now) }
    {
        let mut entries = self.draft.entries;
        for entry in entries[..self.draft.size.places()].iter_mut() {
            *entry = entry.midpoint();
        }
        System::of(self.draft.size, entries)
    }

    /// The box of the system under marks: where bit k of `fixed` is 1, the entry at place k is thin, at its high end where bit k of
    /// `ends` is 1 and else at its low end; the other entries are as they are.
    pub fn boxed(&self, fixed: u64, ends: u64) -> System
        ensures { table_of result ≡ box_of (record { fixed = fixed; ends = ends }) (table_of self.now) }
    {
        let mut entries = self.draft.entries;
        for (place, entry) in entries[..self.draft.size.places()].iter_mut().enumerate() {
            *entry = fixed_entry(*entry, fixed, ends, place);
        }
        System::of(self.draft.size, entries)
    }
}
