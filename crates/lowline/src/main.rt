//! Reads a job from standard input and prints, for each component of the solutions of its system, a figure that it is never below.
#![tactic(auto)]

use arrayvec::ArrayVec;
use solver::line::find_line;
use solver::solving::system_of;
use std::io::Read;
use std::str::FromStr;
use std::{env, io};
use systems::system::System;

/// How many bytes of the input are read; the largest job has fewer.
const ROOM: usize = 512;

/// What the words after the program's name ask for.
#[derive(Clone, Copy, PartialEq, Eq, Debug)]
enum Wish {
    Solve,
    Help,
}

/// Why no wish is known.
#[derive(Debug, Drop)]
enum NoWish {
    UnknownWord,
    NoWords(io::Error),
}

impl From<io::Error> for NoWish {
    fn from(error: io::Error) -> NoWish {
        NoWish::NoWords(error)
    }
}

impl FromStr for Wish {
    type Err = NoWish;

    fn from_str(word: &str) -> Result<Wish, NoWish> {
        match word {
            "--help" => Ok(Wish::Help),
            _ => Err(NoWish::UnknownWord),
        }
    }
}

fn help(rt: &HostRuntime) -> io::Result<()> {
    println!(rt; "lowline: the lowest value of each component of an interval linear system")?;
    println!(rt; "")?;
    println!(rt; "  lowline < JOB      read a job, print a line for each component")?;
    println!(rt; "  lowline --help     print this")?;
    println!(rt; "")?;
    println!(rt; "A line has the component, its low and its high figure in grains (16384 make")?;
    println!(rt; "one), how many boxes wait, how many splits were made, and why the search")?;
    println!(rt; "stopped: settled, full (512 boxes wait) or budget (100 splits were made).")?;
    println!(rt; "No solution of any system inside the job's has that component below the low")?;
    println!(rt; "figure, and one has it at most at the high figure.")?;
    println!(rt; "")?;
    println!(rt; "'1 refused 6' says that component 1 has no figure, and 'refused 9' that the")?;
    println!(rt; "job cannot be read, each with the number of the reason.")
}

// A line for each component.
fn print_lines(rt: &HostRuntime, system: System) -> io::Result<()> {
    println!(rt; "comp low high waiting splits stop")?;
    // By number: it is what is searched for, and printed.
    for component in 1..=system.size() {
        let line = find_line(rt.alloc(), system, component)?;
        println!(rt; "{line}")?;
    }
    Ok(())
}

fn solve_input(rt: &HostRuntime) -> io::Result<()> {
    // Fixed room: reading a job, and refusing it, takes no memory.
    let mut job = ArrayVec::<u8, ROOM>::new();
    io::copy(&mut rt.stdin().take(ROOM as u64), &mut job)?;
    match system_of(job.as_slice()) {
        Ok(system) => print_lines(rt, system),
        Err(refusal) => println!(rt; "{refusal}"),
    }
}

// The last word's wish; a word that is not known counts before all that are.
fn asked(rt: &HostRuntime) -> Result<Wish, NoWish> {
    let mut wish = Wish::Solve;
    for word in env::args(rt)?.skip(1) {
        wish = word.as_str().parse()?;
    }
    Ok(wish)
}

fn main(rt: HostRuntime) -> io::Result<()> {
    match asked(&rt) {
        Ok(Wish::Solve) => solve_input(&rt),
        Ok(Wish::Help) => help(&rt),
        Err(NoWish::UnknownWord) => {
            rt.eprintln("lowline: it takes no word but --help")?;
            Err(io::Error::from(io::ErrorKind::InvalidInput))
        }
        Err(NoWish::NoWords(error)) => Err(error),
    }
}
