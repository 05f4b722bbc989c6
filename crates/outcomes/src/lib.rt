//! What the calls of a search mean: their answers, the records that wait, and what every search keeps.
#![tactic(auto)]

pub mod laws;
pub mod reading;
pub mod record;
pub mod refusal;
