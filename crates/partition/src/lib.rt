//! Splitting a system into boxes: which entry to fix next, and the box of a system with some entries fixed.
#![tactic(auto)]

pub mod laws;
pub mod marks;
pub mod rule;
pub mod rules;
#[cfg(test)]
mod tests;
