//! Reads a job from standard input and prints an interval for each component of the solutions of its system, in grains.
#![tactic(auto)]

use arrayvec::ArrayVec;
use enclosures::elimination::Elimination;
use enclosures::enclosure::row_by;
use enclosures::fault::Fault;
use enclosures::sweep::Sweep;
use grains::interval::Interval;
use jobs::reader::read;
use std::io::Read;
use std::{fmt, io};
use systems::draft::Draft;
use systems::refusal::Refusal;
use systems::system::System;

/// How many bytes of the input are read; the largest job has fewer.
const ROOM: usize = 512;

/// Why a job has no rows.
#[derive(Clone, Copy, PartialEq, Eq, Debug)]
enum NoRows {
    Unreadable(Refusal),
    ByMethod(Fault),
}

impl From<Refusal> for NoRows {
    fn from(refusal: Refusal) -> NoRows {
        NoRows::Unreadable(refusal)
    }
}

impl From<Fault> for NoRows {
    fn from(fault: Fault) -> NoRows {
        NoRows::ByMethod(fault)
    }
}

impl fmt::Display for NoRows {
    fn fmt<W: fmt::Write>(&self, f: &mut fmt::Formatter<W>) -> fmt::Result {
        match self {
            NoRows::Unreadable(refusal) => write!(f, "{refusal}"),
            NoRows::ByMethod(fault) => write!(f, "{fault}"),
        }
    }
}

/// What is found for a system: the row of elimination, and the row after one sweep. The methods fill six places, and of them the system
/// has the first `size`.
#[derive(Clone, Copy)]
struct Rows {
    size: usize,
    plain: [Interval; 6],
    swept: [Interval; 6],
}

impl Rows {
    fn of(system: &System) -> Result<Rows, Fault> {
        Ok(Rows {
            size: system.size(),
            plain: row_by(&Elimination, system)?,
            swept: row_by(&Sweep { below: Elimination }, system)?,
        })
    }

    // Prints a line for each component.
    fn print(&self, rt: &impl Print) -> io::Result<()> {
        println!(rt; "comp low high swept-low swept-high")?;
        for ((component, plain), swept) in (1..=self.size).zip(&self.plain).zip(&self.swept) {
            let low = plain.low();
            let high = plain.high();
            let swept_low = swept.low();
            let swept_high = swept.high();
            println!(rt; "{component} {low} {high} {swept_low} {swept_high}")?;
        }
        Ok(())
    }
}

// The rows of the system that a job holds.
fn rows_in(job: &[u8]) -> Result<Rows, NoRows> {
    let mut draft = Draft::new();
    read(job, &mut draft)?;
    Ok(Rows::of(&draft.close())?)
}

fn main(rt: HostRuntime) -> io::Result<()> {
    // Fixed room: reading does not fail for want of memory.
    let mut job = ArrayVec::<u8, ROOM>::new();
    io::copy(&mut rt.stdin().take(ROOM as u64), &mut job)?;
    match rows_in(job.as_slice()) {
        Ok(rows) => rows.print(&rt),
        Err(reason) => println!(rt; "{reason}"),
    }
}
