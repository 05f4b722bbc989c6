//! One call for host programs in C: a job in, the figures of one component out, as bytes.
#![tactic(auto)]

mod answer;
mod frame;
pub mod host;
