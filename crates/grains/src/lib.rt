//! Interval arithmetic on whole numbers of grains. 16,384 grains make one, and every figure lies in the span, from -2^31 to 2^31 grains.
//! The answer of each operation encloses what the operation makes of the numbers of its operands: low ends are rounded down, high ends up.
#![tactic(auto)]

pub mod interval;
pub mod laws;
#[cfg(test)]
mod tests;
