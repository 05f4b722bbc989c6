//! Checks the enclosure methods on random systems against corner systems that are solved exactly, and on random narrower systems.
#![tactic(auto)]

use enclosures::elimination::Elimination;
use enclosures::enclosure::{Enclosure, row_by};
use enclosures::row_sums::RowSums;
use enclosures::sweep::Sweep;
use grains::interval::Interval;
use std::{fmt, io};
use systems::refusal::Refusal;
use systems::system::System;
use trials::corner::Corner;
use trials::random::Random;
use trials::violations::Violations;

mod drawing;

use crate::drawing::{any_corner, any_system, narrower};

/// How many systems each method gets, and how many corners and narrower systems each accepted one.
const SYSTEMS: u32 = 400;

const CORNERS: u32 = 12;

/// Why the checks ended early; those of searches can end for more.
#[derive(Debug, Drop)]
enum Failure {
    Refused(Refusal),
    Printing(io::Error),
}

impl From<Refusal> for Failure {
    fn from(refusal: Refusal) -> Failure {
        Failure::Refused(refusal)
    }
}

impl From<io::Error> for Failure {
    fn from(error: io::Error) -> Failure {
        Failure::Printing(error)
    }
}

/// What was found for one method.
#[derive(Clone, Copy, Default)]
struct Tally {
    accepted: u32,
    refused: u32,
    solutions: u32,
    narrower: u32,
    violations: Violations,
}

impl fmt::Display for Tally {
    fn fmt<W: fmt::Write>(&self, f: &mut fmt::Formatter<W>) -> fmt::Result {
        let accepted = self.accepted;
        let refused = self.refused;
        let solutions = self.solutions;
        let narrower = self.narrower;
        let violations = self.violations;
        write!(
            f,
            "{accepted} accepted, {refused} refused, {solutions} solutions and {narrower} narrower systems checked, {violations} violations"
        )
    }
}

// Whether a component of the corner's exact solution lies in an interval; never where the corner is singular.
fn lies(corner: &Corner, component: usize, interval: &Interval) -> bool {
    corner.component(component).is_some_and(|exact| {
        exact.is_at_least(interval.low()) && exact.is_at_most(interval.high())
    })
}

// Whether each component of the corner's exact solution lies in its interval of the row.
fn holds(corner: &Corner, row: &[Interval]) -> bool {
    row.iter()
        .enumerate()
        .all(|(component, interval)| lies(corner, component, interval))
}

// Whether each interval of a row lies within that of the other.
fn within(inner: &[Interval], outer: &[Interval]) -> bool {
    inner.iter().zip(outer).all(|(inner, outer)| outer.low() <= inner.low()
        && inner.high() <= outer.high())
}

/// A method under check, the random numbers to come, and what was found so far.
#[derive(Clone, Copy)]
struct Trial<M> {
    method: M,
    random: Random,
    tally: Tally,
}

impl<M: Enclosure> Trial<M> {
    // One accepted system: exact solutions of corners, and rows of narrower systems.
    fn check_accepted(&mut self, system: &System, row: &[Interval]) -> Result<(), Refusal> {
        for _ in 0..CORNERS {
            let corner = any_corner(&mut self.random, system)?;
            self.tally.solutions = self.tally.solutions.saturating_add(1);
            self.tally.violations.expect(holds(&corner, row));
            let nested = narrower(&mut self.random, system)?;
            self.tally.narrower = self.tally.narrower.saturating_add(1);
            let inner = row_by(&self.method, &nested);
            self.tally
                .violations
                .expect(inner.is_ok_and(|inner| within(&inner, row)));
        }
        Ok(())
    }

    // The next random system.
    fn check_next(&mut self) -> Result<(), Refusal> {
        let system = any_system(&mut self.random)?;
        match row_by(&self.method, &system) {
            Ok(row) => {
                self.tally.accepted = self.tally.accepted.saturating_add(1);
                self.check_accepted(&system, &row[..system.size()])?;
            }
            Err(_) => self.tally.refused = self.tally.refused.saturating_add(1),
        }
        Ok(())
    }
}

// The same systems for every method.
fn check<M: Enclosure + Copy>(method: M) -> Result<Tally, Refusal> {
    let mut trial = Trial {
        method,
        random: Random::new(20211),
        tally: Tally::default(),
    };
    for _ in 0..SYSTEMS {
        trial.check_next()?;
    }
    Ok(trial.tally)
}

fn check_all(rt: &impl Print) -> Result<(), Failure> {
    let tally = check(Elimination)?;
    println!(rt; "elimination: {tally}")?;
    let tally = check(RowSums)?;
    println!(rt; "row sums: {tally}")?;
    let tally = check(Sweep { below: Elimination })?;
    println!(rt; "elimination under a sweep: {tally}")?;
    let tally = check(Sweep { below: RowSums })?;
    println!(rt; "row sums under a sweep: {tally}")?;
    Ok(())
}

// An early end is that of the output. No system that is drawn is refused; if one were, this says why.
fn main(rt: HostRuntime) -> io::Result<()> {
    match check_all(&rt) {
        Ok(()) => Ok(()),
        Err(Failure::Printing(error)) => Err(error),
        Err(Failure::Refused(refusal)) => {
            eprintln!(rt; "checks: a system that was drawn is {refusal}")?;
            Err(io::Error::from(io::ErrorKind::InvalidData))
        }
    }
}
