//! The table of waiting records.
use outcomes::record::Record;
use std::marker::Model;

mod methods;

/// The most records that may wait.
pub const MOST_WAITING: usize = 512;

/// Waiting records in the order in which they were made: a list of at most 512. Room for all of them is taken when the table is made.
#[derive(Drop)]
pub struct Records {
    items: Vec<Record>,
}

impl Model for Records {
    ghost use Rattle.std.specs.Prelude.{◌≤◌, List, vec_len, vec_capacity};
    ghost use Rattle.outcomes.specs.declared.record.Record.{Record};

    ghost Value = { List Record };

    ghost view = { λ table. table.items.items };

    ghost invariant = { λ table. (512 ≤ vec_capacity table.items) × (vec_len table.items ≤ 512) };
}
