//! A first search: one row, [2, 4] with the right side [1, 3]. It prints the reading after the start and after each split, and why the
//! last split is refused.
#![tactic(auto)]

use enclosures::elimination::Elimination;
use outcomes::reading::Reading;
use outcomes::refusal::SearchRefusal;
use partition::rules::Widest;
use searches::search::Search;
use std::{fmt, io};
use systems::draft::Draft;
use systems::refusal::Refusal;
use systems::system::System;

/// A call of the search by its name, and what it answered.
#[derive(Clone, Copy)]
struct Step {
    name: &'static str,
    answer: Result<Reading, SearchRefusal>,
}

impl fmt::Display for Step {
    fn fmt<W: fmt::Write>(&self, f: &mut fmt::Formatter<W>) -> fmt::Result {
        write!(f, "{}: ", self.name)?;
        match self.answer {
            Ok(reading) => {
                let low = reading.low;
                let high = reading.high;
                let waiting = reading.waiting;
                let splits = reading.splits;
                let settled = if reading.settled {
                    "settled"
                } else {
                    "not settled"
                };
                write!(
                    f,
                    "low {low}, high {high}, {waiting} waiting, {splits} splits, {settled}"
                )
            }
            Err(refusal) => write!(f, "{refusal}"),
        }
    }
}

// The row as a system.
fn row() -> Result<System, Refusal> {
    let mut draft = Draft::new();
    draft.set(0, 2, 4)?;
    draft.set(1, 1, 3)?;
    Ok(draft.close())
}

// Searches for the least value of the one component.
fn search_in(rt: &(impl Print + AllocGlobal), system: System) -> io::Result<()> {
    let mut search = Search::new(rt.alloc(), system, Elimination, Widest)?;
    let started = Step {
        name: "start",
        answer: search.start(1),
    };
    println!(rt; "{started}")?;
    for _ in 0..3u32 {
        let split = Step {
            name: "split",
            answer: search.split(),
        };
        println!(rt; "{split}")?;
    }
    Ok(())
}

fn main(rt: HostRuntime) -> io::Result<()> {
    match row() {
        Ok(system) => search_in(&rt, system),
        Err(refusal) => println!(&rt; "{refusal}"),
    }
}
