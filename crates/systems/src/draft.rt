//! Drafts: systems that are still being filled in.
ghost use Rattle.std.specs.Prelude.{◌≡◌, length};

use crate::entry::Entry;
use crate::size::Size;

mod methods;

/// The greatest size of a system.
pub const MOST_ROWS: usize = 6;

/// The places of the largest system.
pub const MOST_PLACES: usize = 42;

/// A system in the making. Places count from 0, row by row; each row has its matrix entries, then its right-hand entry.
#[derive(Clone, Copy)]
pub struct Draft {
    pub(crate) size: Size,
    // Fixed memory, with room for the largest system: nothing allocates, so nothing here can fail for want of memory.
    pub(crate) entries: [Entry; MOST_PLACES],
    ghost full: { length entries ≡ 42 },
}
