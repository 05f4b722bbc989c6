//! Prints the jobs of a few systems in hexadecimal, each on a line behind its name, as the writer writes them.
#![tactic(auto)]

use jobs::writer::write;
use std::{fmt, io};
use systems::draft::Draft;
use systems::refusal::Refusal;
use systems::system::System;

/// Room for the longest job.
const ROOM: usize = 467;

/// A system under the name of its job: its size, and the ends of its entries, place by place.
#[derive(Clone, Copy)]
struct Sample {
    name: &'static str,
    size: usize,
    entries: &'static [(i32, i32)],
}

// The last is three taps of a voltage divider, by current balance at each tap.
const SAMPLES: [Sample; 5] = [
    Sample {
        name: "worked.job",
        size: 1,
        entries: &[(2, 4), (1, 3)],
    },
    Sample {
        name: "coupled.job",
        size: 2,
        entries: &[(1, 1), (362, 362), (1, 1), (362, 362), (1, 1), (0, 0)],
    },
    Sample {
        name: "demo.job",
        size: 2,
        entries: &[(2, 4), (-2, 1), (-2, 2), (-1, 2), (2, 4), (-2, 2)],
    },
    Sample {
        name: "dominant.job",
        size: 2,
        entries: &[(4, 4), (1, 1), (5, 5), (1, 1), (4, 4), (5, 5)],
    },
    Sample {
        name: "divider.job",
        size: 3,
        entries: &[
            (199, 224),
            (-106, -95),
            (0, 0),
            (1140, 1272),
            (-106, -95),
            (199, 224),
            (-106, -95),
            (0, 0),
            (0, 0),
            (-106, -95),
            (104, 118),
            (0, 0),
        ],
    },
];

impl Sample {
    fn system(&self) -> Result<System, Refusal> {
        let mut draft = Draft::new();
        draft.renew(self.size)?;
        for (place, &(low, high)) in self.entries.iter().enumerate() {
            draft.set(place, low, high)?;
        }
        Ok(draft.close())
    }

    // Writes the job into the buffer, and answers the bytes that it takes.
    fn job<'a>(&self, buffer: &'a mut [u8; ROOM]) -> Result<&'a [u8], Refusal> {
        let len = write(&self.system()?, buffer)?;
        Ok(&buffer[..len])
    }
}

impl fmt::Display for Sample {
    fn fmt<W: fmt::Write>(&self, f: &mut fmt::Formatter<W>) -> fmt::Result {
        write!(f, "{} ", self.name)?;
        match self.job(&mut [0; ROOM]) {
            Ok(job) => {
                for byte in job {
                    write!(f, "{byte:02x}")?;
                }
                Ok(())
            }
            Err(refusal) => write!(f, "{refusal}"),
        }
    }
}

fn main(rt: HostRuntime) -> io::Result<()> {
    for sample in &SAMPLES {
        println!(rt; "{sample}")?;
    }
    Ok(())
}
