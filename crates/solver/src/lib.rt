//! What the program `lowline` and a host's call do with a job: read it, search, and say what was found.
#![tactic(auto)]

pub mod line;
pub mod solving;
