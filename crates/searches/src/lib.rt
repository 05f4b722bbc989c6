//! The search: it splits a system into boxes, and its low figure is true at every moment.
#![tactic(auto)]

pub mod lowest;
mod records;
pub mod search;
