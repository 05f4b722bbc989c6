//! Runs the reader on a job, on each beginning of it and on each job that differs from it in one byte, and prints how often it gave each answer.
#![tactic(auto)]

use jobs::reader::read;
use std::{fmt, io};
use systems::draft::Draft;

const JOB: [u8; 27] = [
    0x53, 0x5a, 0x01, 0x45, 0x4e, 0x00, 0x00, 0x00, 0x00, 0x02, 0x00, 0x00, 0x00, 0x04, 0x45, 0x4e,
    0x01, 0x00, 0x00, 0x00, 0x01, 0x00, 0x00, 0x00, 0x03, 0x5a, 0x5a,
];

/// How often each number was answered, 0 standing for a job that was read, and a digest of all answers in their order.
#[derive(Clone, Copy, Default)]
struct Tally {
    // By number, which is at most 14. An array: counting takes no memory, so nothing here can fail for want of it.
    answers: [u32; 15],
    digest: u64,
}

impl Tally {
    fn mix(&mut self, value: u64) {
        self.digest = self.digest.wrapping_mul(1000003).wrapping_add(value);
    }

    // By number and not by refusal: 0 and the numbers are what is printed, and what the digest is of.
    fn count(&mut self, number: u32) {
        if let Some(count) = self.answers.get_mut(number as usize) {
            *count = count.saturating_add(1);
        }
    }

    // Adds the reader's answer to a job: its number, or the size and the entries that it read.
    fn add(&mut self, job: &[u8]) {
        let mut draft = Draft::new();
        let number = match read(job, &mut draft) {
            Ok(()) => 0,
            Err(refusal) => refusal.number(),
        };
        self.count(number);
        self.mix(u64::from(number));
        let system = draft.close();
        self.mix(system.size() as u64);
        for entry in system.entries() {
            self.mix(u64::from(entry.low().cast_unsigned()));
            self.mix(u64::from(entry.high().cast_unsigned()));
        }
    }
}

impl fmt::Display for Tally {
    fn fmt<W: fmt::Write>(&self, f: &mut fmt::Formatter<W>) -> fmt::Result {
        for (number, count) in self.answers.iter().enumerate() {
            if *count > 0 {
                write!(f, " {number}:{count}")?;
            }
        }
        write!(f, " digest {}", self.digest)
    }
}

// The job's beginnings, from none of its bytes to all of them.
fn beginnings() -> Tally {
    let mut tally = Tally::default();
    // By length: there is no iterator over the beginnings of a slice.
    for len in 0..=JOB.len() {
        tally.add(&JOB[..len]);
    }
    tally
}

// The job with each byte in one place.
fn changes(at: usize) -> Tally {
    let mut tally = Tally::default();
    for byte in 0..=255u8 {
        let mut job = JOB;
        if let Some(here) = job.get_mut(at) {
            *here = byte;
        }
        tally.add(&job);
    }
    tally
}

fn main(rt: HostRuntime) -> io::Result<()> {
    println!(rt; "beginnings{}", beginnings())?;
    // By position: it is printed.
    for at in 0..JOB.len() {
        println!(rt; "byte {at}{}", changes(at))?;
    }
    Ok(())
}
