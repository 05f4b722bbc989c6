//! What the programs that check at random share: random numbers that are the same at every run, the parts of a system, and exact solutions
//! of systems of plain numbers.
#![tactic(auto)]

pub mod corner;
pub mod part;
pub mod random;
#[cfg(test)]
mod tests;
pub mod violations;
