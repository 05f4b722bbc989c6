//! How drafts are made, filled in, read and closed.
ghost use Rattle.std.specs.Prelude.{◌≡◌, ◌≤◌, map};
ghost use Rattle.std.specs.Option.{option_map};
ghost use Rattle.systems.specs.Entries.{ends_of};
ghost use Rattle.systems.specs.Tables.{blank, drafted, entry_at, places_of, table_of, sized, placed, Changed};

use crate::draft::{Draft, MOST_PLACES};
use crate::entry::Entry;
use crate::refusal::Refusal;
use crate::size::Size;
use crate::system::System;

impl Draft {
    // A draft of a size with every entry [0, 0].
    fn blank(size: Size) -> Draft
        ensures { drafted result ≡ blank size.rows }
    {
        Draft {
            size,
            entries: [Entry::zero(); MOST_PLACES],
        }
    }

    /// A draft of size 1 with both entries [0, 0].
    pub fn new() -> Draft
        ensures { drafted result ≡ blank 1 }
    {
        Draft::blank(Size::one())
    }

    /// Makes the draft new at a size from 1 to 6, every entry [0, 0]; another size is refused with 1, and the draft stays as it was.
    pub fn renew(&mut self, size: usize) -> Result<(), Refusal>
        ensures { Changed result self.old self.new (sized size) }
    {
        *self = Draft::blank(Size::new(size)?);
        Ok(())
    }

    /// Replaces the entry at a place. Refused with 2 where there is no such place, with 3 where an end is out of range and
    /// with 4 where the ends are out of order, in this order; the draft then stays as it was.
    #[tactic(auto, unfolding(crate::specs::Tables::placed, crate::specs::Tables::tabled))]
    pub fn set(&mut self, place: usize, low: i32, high: i32) -> Result<(), Refusal>
        ensures { Changed result self.old self.new (placed place low high (drafted self.old)) }
    {
        if place >= self.size.places() {
            return Err(Refusal::PlaceOutOfRange);
        }
        let entry = Entry::new(low, high)?;
        self.entries[place] = entry;
        Ok(())
    }

    /// The number of rows, from 1 to 6.
    #[tactic(auto, unfolding(crate::specs::Tables::tabled))]
    pub fn size(&self) -> usize
        ensures value { result ≡ (drafted self.now).size }
        ensures some { 1 ≤ result }
        ensures few { result ≤ 6 }
    {
        self.size.rows()
    }

    /// The number of places: each row has one more entry than there are rows.
    #[tactic(auto, unfolding(crate::specs::Tables::tabled))]
    pub fn places(&self) -> usize
        ensures { result ≡ places_of (drafted self.now).size }
    {
        self.size.places()
    }

    /// The entries, place by place.
    pub fn entries(&self) -> &[Entry]
        ensures { map ends_of result.now ≡ (drafted self.now).entries }
    {
        &self.entries[..self.size.places()]
    }

    /// The entry at a place, or none where there is no such place.
    pub fn entry(&self, place: usize) -> Option<Entry>
        ensures { option_map ends_of result ≡ entry_at (drafted self.now) place }
    {
        self.entries().get(place).copied()
    }

    /// The system with these entries. Nothing can be refused.
    pub fn close(self) -> System
        ensures { table_of result ≡ drafted self }
    {
        System { draft: self }
    }
}
