//! A job's system, and one search over it.
ghost use Rattle.std.specs.Prelude.{◌≡◌};
ghost use Rattle.jobs.specs.Reading.{parsed};
ghost use Rattle.searches.specs.Lowest.{Answers, Holds, low_in};
ghost use Rattle.systems.specs.Tables.{table_of};
ghost use Rattle.solver.specs.Solving.{table_in, found_for};

use enclosures::elimination::Elimination;
use enclosures::sweep::Sweep;
use jobs::reader::read;
use outcomes::reading::Report;
use partition::rules::Widest;
use searches::lowest::{NoFigure, solve};
use std::alloc::Global;
use systems::draft::Draft;
use systems::refusal::Refusal;
use systems::system::System;

/// The system that a job holds, closed.
pub fn system_of(job: &[u8]) -> Result<System, Refusal>
    ensures { table_in result ≡ parsed job.now }
{
    let mut draft = Draft::new();
    read(job, &mut draft)?;
    Ok(draft.close())
}

/// A search by elimination under one sweep, splitting the widest entry: started with a component, counted from 1, and run with a budget.
#[tactic(auto, unfolding(crate::specs::Solving::found_for))]
pub fn find(heap: Global, system: System, component: usize, budget: u32) -> Result<Report, NoFigure>
    ensures value { Answers result (found_for (table_of system) component budget) }
    ensures holds { Holds low_in result (table_of system) component }
{
    solve(
        heap,
        system,
        Sweep { below: Elimination },
        Widest,
        component,
        budget,
    )
}
