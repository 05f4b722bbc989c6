//! Square systems of linear equations whose numbers are known only to lie between two ends.
#![tactic(auto)]

pub mod draft;
pub mod entry;
pub mod marks;
pub mod refusal;
mod size;
pub mod system;
