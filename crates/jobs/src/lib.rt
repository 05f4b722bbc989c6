//! Jobs: systems as bytes. A job is the record SZ with the size, the records EN of the entries other than [0, 0] by rising place, and the end mark ZZ.
#![tactic(auto)]

pub mod reader;
#[cfg(test)]
mod tests;
pub mod writer;
