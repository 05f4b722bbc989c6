//! The search over a system, by a method and a rule.
ghost use Rattle.std.specs.Prelude.{◌≤◌, length};

use crate::records::Records;
use outcomes::record::Entered;
use systems::system::System;

mod methods;

/// What a started search holds beside its records.
#[derive(Clone, Copy)]
pub struct Progress {
    component: usize,
    high: i64,
    splits: u64,
}

// The two records that a split enters: the low end first.
#[derive(Clone, Copy)]
struct Halves {
    low: Entered,
    high: Entered,
}

// How many splits a run made, and what the search holds at its end.
#[derive(Clone, Copy)]
struct Ran {
    made: u32,
    progress: Progress,
}

/// A search for the least value of one component of a system.
#[derive(Drop)]
pub struct Search<M, R> {
    system: System,
    method: M,
    rule: R,
    progress: Option<Progress>,
    waiting: Records,
    // For callers, who see the table as a list.
    ghost few: { length waiting ≤ 512 },
}
