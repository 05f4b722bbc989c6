//! A search whose every answer is checked.
use crate::corners::corners_of;
use crate::failure::Failure;
use crate::searching::calls::Call;
use crate::searching::tally::Tally;
use enclosures::enclosure::{Enclosure, row_by};
use grains::interval::Interval;
use outcomes::reading::{Reading, Report, Stop};
use outcomes::refusal::SearchRefusal;
use partition::rule::Rule;
use searches::search::Search;
use std::alloc::Global;
use systems::system::System;
use trials::corner::{Corner, Quotient};

// The tally is handed to each method: with a reference to it as a field, the borrow checker does not cover `call` and `check_corners`.
/// A search, with what the calls so far have shown of it.
#[derive(Drop)]
pub(crate) struct Watched<M, R> {
    system: System,
    corners: Vec<System>,
    method: M,
    search: Search<M, R>,
    // counted from 0
    component: usize,
    splits: u64,
    last: Option<Reading>,
}

// A call that was carried out: its reading, and the splits it made.
#[derive(Clone, Copy)]
struct Answer {
    reading: Reading,
    made: u32,
}

impl From<Report> for Answer {
    fn from(report: Report) -> Answer {
        Answer {
            reading: report.reading,
            made: report.made,
        }
    }
}

// Whether the end of a run fits its reading and its budget; none of these searches can be full.
fn fits(report: Report, budget: u32) -> bool {
    match report.stop {
        Stop::Settled => report.reading.settled && report.made <= budget,
        Stop::Full => false,
        Stop::Budget => !report.reading.settled && report.made == budget,
    }
}

impl<M: Enclosure + Copy, R: Rule + Copy> Watched<M, R> {
    /// A search over a system that is not started.
    pub(crate) fn new(
        heap: Global,
        system: System,
        method: M,
        rule: R,
    ) -> Result<Watched<M, R>, Failure> {
        Ok(Watched {
            system,
            corners: corners_of(heap, &system)?,
            method,
            search: Search::new(heap, system, method, rule)?,
            component: 0,
            splits: 0,
            last: None,
        })
    }

    // The method's interval for the component of a system.
    fn interval_of(&self, system: &System) -> Option<Interval> {
        let row = row_by(&self.method, system).ok()?;
        row.get(self.component).copied()
    }

    // The component of the exact solution at a corner.
    fn exact_at(&self, corner: &System) -> Option<Quotient> {
        Corner::at_low(*corner).component(self.component)
    }

    // The refusal that is due at a start, if one is.
    fn due_at_start(&self, component: usize) -> Result<(), SearchRefusal> {
        if self.last.is_some() {
            return Err(SearchRefusal::AlreadyStarted);
        }
        if component < 1 || self.system.size() < component {
            return Err(SearchRefusal::ComponentOutOfRange);
        }
        row_by(&self.method, &self.system)?;
        Ok(())
    }

    // The refusal that is due at a call, if it is not to be carried out.
    fn due(&self, call: Call) -> Result<(), SearchRefusal> {
        match (call, self.last) {
            (Call::Start(component), _) => self.due_at_start(component),
            (_, None) => Err(SearchRefusal::NotStarted),
            (Call::Split, Some(reading)) if reading.settled => Err(SearchRefusal::Settled),
            (_, Some(_)) => Ok(()),
        }
    }

    fn run(&mut self, budget: u32, tally: &mut Tally) -> Result<Answer, SearchRefusal> {
        let report = self.search.run(budget)?;
        tally.violations.expect(fits(report, budget));
        Ok(Answer::from(report))
    }

    fn carry_out(&mut self, call: Call, tally: &mut Tally) -> Result<Answer, SearchRefusal> {
        let (reading, made) = match call {
            Call::Start(component) => (self.search.start(component)?, 0),
            Call::Split => (self.search.split()?, 1),
            Call::Run(budget) => return self.run(budget, tally),
            Call::Read => (self.search.reading()?, 0),
        };
        Ok(Answer { reading, made })
    }

    // The reading now; the only refusal is that the search is not started.
    fn reading(&self, tally: &mut Tally) -> Option<Reading> {
        let reading = self.search.reading();
        if let Err(refusal) = reading {
            tally
                .violations
                .expect(refusal == SearchRefusal::NotStarted);
        }
        reading.ok()
    }

    /// Makes a call, and checks its answer and the reading after it.
    pub(crate) fn call(&mut self, call: Call, tally: &mut Tally) {
        tally.calls = tally.calls.saturating_add(1);
        let due = self.due(call);
        let answer = self.carry_out(call, tally);
        let after = self.reading(tally);
        match (answer, due) {
            (Ok(answer), Ok(())) => {
                tally.violations.expect(after == Some(answer.reading));
                self.splits = self.splits.saturating_add(u64::from(answer.made));
                if let Call::Start(component) = call {
                    self.component = component.saturating_sub(1);
                    tally.violations.expect(self.is_first(answer.reading));
                }
            }
            (Err(refusal), Err(due)) => tally
                .violations
                .expect(refusal == due && after == self.last),
            _ => tally.violations.expect(false),
        }
        if let Some(reading) = after {
            self.check_reading(reading, tally);
        }
        self.last = after;
    }

    // Whether a reading is that of a search just started: one record, with the low figure of the whole system.
    fn is_first(&self, reading: Reading) -> bool {
        self.interval_of(&self.system).is_some_and(|interval| reading.low == interval.low()
            && reading.waiting == 1)
    }

    fn check_reading(&self, reading: Reading, tally: &mut Tally) {
        self.check_counts(reading, tally);
        self.check_corners(reading, tally);
        if let Some(before) = self.last {
            tally
                .violations
                .expect(before.low <= reading.low && reading.high <= before.high);
        }
        if reading.settled {
            tally.violations.expect(self.ends_at_corner(reading));
        }
    }

    // The splits are those made, at most one less than there are corners, and then the search is settled; 1 to 512 records wait, and the
    // figures are in order.
    fn check_counts(&self, reading: Reading, tally: &mut Tally) {
        let most = (self.corners.len() as u64).saturating_sub(1);
        tally.violations.expect(reading.splits == self.splits);
        tally.violations.expect(reading.splits < most || reading.splits == most && reading.settled);
        tally
            .violations
            .expect(1 <= reading.waiting && reading.waiting <= 512);
        tally.violations.expect(reading.low <= reading.high);
    }

    // No corner's component is below the low figure, and some corner's is not above the high figure.
    fn check_corners(&self, reading: Reading, tally: &mut Tally) {
        for corner in &self.corners {
            tally.corners = tally.corners.saturating_add(1);
            let exact = self.exact_at(corner);
            tally
                .violations
                .expect(exact.is_some_and(|exact| exact.is_at_least(reading.low)));
        }
        tally.violations.expect(
            self.corners.iter().any(|corner| {
                self.exact_at(corner)
                    .is_some_and(|exact| exact.is_at_most(reading.high))
            }),
        );
    }

    // Whether the method's interval for some corner has the low figure for its low end, and the high figure not above its high end.
    fn ends_at_corner(&self, reading: Reading) -> bool {
        self.corners.iter().any(|corner| {
            self.interval_of(corner).is_some_and(|interval| {
                interval.low() == reading.low && reading.high <= interval.high()
            })
        })
    }

    /// Counts the search as it stands at the end of its calls.
    pub(crate) fn close(&self, tally: &mut Tally) {
        match self.last {
            Some(reading) => {
                tally.started = tally.started.saturating_add(1);
                tally.splits = tally.splits.saturating_add(self.splits);
                if reading.settled {
                    tally.settled = tally.settled.saturating_add(1);
                }
            }
            None => tally.refused = tally.refused.saturating_add(1),
        }
    }
}
