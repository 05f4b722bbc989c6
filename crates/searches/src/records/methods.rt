ghost use Rattle.std.specs.Prelude.{◌≡◌, ◌<◌, ◌≤◌, [], ◌∷◌, ◌++◌, length, IfOk, MatchOption, nat_le};
ghost use Rattle.std.specs.List.{remove};
ghost use Rattle.outcomes.specs.Waiting.{leading_at, leading, kept_below};

use crate::records::{MOST_WAITING, Records};
use outcomes::record::Record;
use partition::marks::Marks;
use std::alloc::{AllocError, Global};

impl Records {
    // An empty table with its room.
    pub(crate) fn new(heap: Global) -> Result<Records, AllocError>
        ensures { IfOk result (λ table. table ≡ []) }
    {
        let items = Vec::with_capacity(heap, MOST_WAITING)?;
        Ok(Records { items })
    }

    pub(crate) fn len(&self) -> usize
        ensures { result ≡ length self.now }
    {
        self.items.len()
    }

    // Whether no more records may wait.
    pub(crate) fn is_full(&self) -> bool
        ensures { result ≡ nat_le 512 (length self.now) }
    {
        self.items.len() >= MOST_WAITING
    }

    // The leading record with its place: the least low figure, the earliest made among equals.
    fn leader(&self) -> Option<(usize, &Record)>
        ensures { MatchOption result (length self.now ≡ 0) (λ found. (found.0 < length self.now) × (found.0 ≡ leading_at self.now) × (found.1.now ≡ leading self.now)) }
    {
        self.items
            .iter()
            .enumerate()
            .min_by_key(|(_, record)| record.low)
    }

    // The leading record; in an empty table one with low figure 0 and no mark.
    pub(crate) fn leading(&self) -> Record
        ensures { result ≡ leading self.now }
    {
        let none = Record {
            low: 0,
            marks: Marks::none(),
        };
        self.leader().map_or(none, |(_, record)| *record)
    }

    // A table of one record.
    pub(crate) fn restart(&mut self, first: Record)
        ensures { self.new ≡ first ∷ [] }
    {
        self.items.clear();
        self.items.push_reserved(first);
    }

    // Takes the leading record out, and puts two behind the others.
    pub(crate) fn replace_leading(&mut self, first: Record, second: Record)
        requires { length self.old < 512 }
        ensures { self.new ≡ remove self.old (leading_at self.old) ++ first ∷ second ∷ [] }
    {
        if let Some((place, _)) = self.leader() {
            self.items.remove(place);
        }
        self.items.push_reserved(first);
        self.items.push_reserved(second);
    }

    // Drops each record whose low figure is above the high figure; the others keep their order.
    pub(crate) fn drop_above(&mut self, high: i64)
        ensures items { self.new ≡ kept_below high self.old }
        ensures few { length self.new ≤ 512 }
    {
        // By a rule of this project dropping is a loop over the waiting records that compares each with the high figure, so no `retain`.
        let mut count = 0;
        for place in 0..self.items.len() {
            let record = self.items[place];
            if record.low <= high {
                self.items[count] = record;
                count += 1;
            }
        }
        self.items.truncate(count);
    }
}
