//! A waiting record.
use partition::marks::Marks;

/// A box that waits to be split: the low figure of the chosen component there, and the marks that make it.
#[derive(Clone, Copy, PartialEq, Eq, Debug)]
pub struct Record {
    pub low: i64,
    pub marks: Marks,
}

/// A record as it is entered, with the high figure of its box's midpoint system.
#[derive(Clone, Copy, PartialEq, Eq, Debug)]
pub struct Entered {
    pub waiting: Record,
    pub high: i64,
}
