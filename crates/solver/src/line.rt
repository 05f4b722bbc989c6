//! A line of the program `lowline`.
ghost use Rattle.std.specs.Prelude.{◌≡◌, IfOk, Some};
ghost use Rattle.systems.specs.Tables.{table_of};
ghost use Rattle.solver.specs.Lines.{Finds, line_of, text_of};

use crate::solving::find;
use outcomes::reading::{Reading, Report};
use outcomes::refusal::SearchRefusal;
use searches::lowest::NoFigure;
use std::alloc::{AllocError, Global};
use std::fmt;
use systems::system::System;

/// The splits that `lowline` allows for each component.
pub const BUDGET: u32 = 100;

/// A component, counted from 1, and the report of its search, or why that was refused.
#[derive(Clone, Copy, PartialEq, Eq, Debug)]
pub struct Line {
    pub component: usize,
    pub outcome: Result<Report, SearchRefusal>,
}

// What a search found, unless it wanted memory.
fn outcome_of(found: Result<Report, NoFigure>) -> Result<Result<Report, SearchRefusal>, AllocError>
    ensures { IfOk result (λ o. Finds found o) }
{
    match found {
        Ok(report) => Ok(Ok(report)),
        Err(NoFigure::Refused(refusal)) => Ok(Err(refusal)),
        Err(NoFigure::Memory) => Err(AllocError),
    }
}

/// The line of a component of a system, after a search with a budget of 100.
#[tactic(auto, unfolding(crate::specs::Lines::line_of))]
pub fn find_line(heap: Global, system: System, component: usize) -> Result<Line, AllocError>
    ensures { IfOk result (λ l. l ≡ line_of (table_of system) component) }
{
    let found = find(heap, system, component, BUDGET);
    let outcome = outcome_of(found)?;
    Ok(Line { component, outcome })
}

impl fmt::Display for Line {
    ghost output = { λ l. Some (text_of l) };

    fn fmt<W: fmt::Write>(&self, f: &mut fmt::Formatter<W>) -> fmt::Result {
        let component = self.component;
        match self.outcome {
            Ok(report) => {
                let Reading {
                    low,
                    high,
                    waiting,
                    splits,
                    ..
                } = report.reading;
                let stop = report.stop;
                write!(f, "{component} {low} {high} {waiting} {splits} {stop}")
            }
            Err(refusal) => write!(f, "{component} {refusal}"),
        }
    }
}
