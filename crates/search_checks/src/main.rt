//! Checks random searches against the exact solutions of all corner systems.
#![tactic(auto)]

use crate::failure::Failure;
use std::alloc::AllocError;
use std::io;

mod corners;
mod drawing;
mod failure;
mod searching;

// An early end is that of the output, or the want of memory. No system that is drawn is refused, and no call of the search that is filled up;
// if one were, this says why.
fn main(rt: HostRuntime) -> io::Result<()> {
    match searching::check_all(&rt) {
        Ok(()) => return Ok(()),
        Err(Failure::Printing(error)) => return Err(error),
        Err(Failure::Memory) => return Err(io::Error::from(AllocError)),
        Err(Failure::Refused(refusal)) => eprintln!(rt;
            "search_checks: a system that was drawn is {refusal}"
        )?,
        Err(Failure::SearchRefused(refusal)) => eprintln!(rt;
            "search_checks: a call that was due is {refusal}"
        )?,
    }
    Err(io::Error::from(io::ErrorKind::InvalidData))
}
