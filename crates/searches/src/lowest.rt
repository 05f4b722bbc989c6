//! One search for one component, and its low figure: what a user of the search relies on.
ghost use Rattle.std.specs.Prelude.{◌≡◌};
ghost use Rattle.systems.specs.Tables.{table_of};
ghost use Rattle.searches.specs.declared.lowest.NoFigure.TheVariants.{Memory, Refused};
ghost use Rattle.searches.specs.Lowest.{Answers, Holds, low_in, itself, solved_of, lowest_of};

use crate::search::Search;
use enclosures::enclosure::Enclosure;
use outcomes::reading::Report;
use outcomes::refusal::SearchRefusal;
use partition::rule::Rule;
use std::alloc::{AllocError, Global};
use systems::system::System;

/// Why there is no figure.
#[derive(Clone, Copy, PartialEq, Eq, Debug)]
pub enum NoFigure {
    /// There is no memory for a search.
    Memory,
    /// A call of the search was refused.
    Refused(SearchRefusal),
}

impl From<AllocError> for NoFigure {
    ghost from_gives = { λ _ r. r ≡ Memory };

    fn from(_error: AllocError) -> NoFigure {
        NoFigure::Memory
    }
}

impl From<SearchRefusal> for NoFigure {
    ghost from_gives = { λ e r. r ≡ Refused e };

    fn from(refusal: SearchRefusal) -> NoFigure {
        NoFigure::Refused(refusal)
    }
}

/// A search for a component, counted from 1, that is started and run with a budget. The low figure of its reading is one that the
/// component is never below: not in any rational solution of any point system inside the system.
// Component and budget are two plain numbers, as the call for C gets them.
#[tactic(auto, unfolding(crate::specs::Lowest::solved_of))]
pub fn solve<M: Enclosure + Drop, R: Rule + Drop>(
    heap: Global,
    system: System,
    method: M,
    rule: R,
    component: usize,
    budget: u32,
) -> Result<Report, NoFigure>
    ensures value { Answers result (solved_of (M.Enclosure.meaning method) (R.Rule.answer rule) (table_of system) component budget) }
    ensures holds { Holds low_in result (table_of system) component }
{
    let mut search = Search::new(heap, system, method, rule)?;
    search.start(component)?;
    let report = search.run(budget)?;
    let reading = search.reading()?;
    Ok(Report { reading, ..report })
}

/// The low figure of such a search, in grains.
#[tactic(auto, unfolding(crate::specs::Lowest::lowest_of))]
pub fn lowest<M: Enclosure + Drop, R: Rule + Drop>(
    heap: Global,
    system: System,
    method: M,
    rule: R,
    component: usize,
    budget: u32,
) -> Result<i64, NoFigure>
    ensures value { Answers result (lowest_of (M.Enclosure.meaning method) (R.Rule.answer rule) (table_of system) component budget) }
    ensures holds { Holds itself result (table_of system) component }
{
    solve(heap, system, method, rule, component, budget).map(|report| report.reading.low)
}
