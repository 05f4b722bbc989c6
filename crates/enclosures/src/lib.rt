//! Methods that enclose the solutions of an interval linear system: for each component an interval, in grains.
#![tactic(auto)]

pub mod elimination;
pub mod enclosure;
mod equation;
pub mod fault;
mod line;
pub mod row_sums;
pub mod scaling;
pub mod sweep;
mod working;
