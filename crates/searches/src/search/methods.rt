ghost use Rattle.std.specs.Prelude.{◌≡◌, ◌<◌, ◌≤◌, true, ◌&&◌, length, is_ok, IfOk, if◌then◌else◌, Some, None, ◌==◌, nat_le};
ghost use Rattle.systems.specs.Tables.{table_of, wide_entries};
ghost use Rattle.outcomes.specs.declared.reading.Stop.TheVariants as stop;
ghost use Rattle.outcomes.specs.Promise.{Promised};
ghost use Rattle.outcomes.specs.Searching.{box, figures_of, entered, replaced, place_by, reading_of, split_of, run_of, report_of, start, split, run, read, step};
ghost use Rattle.searches.specs.States.{started_from, state_of, tried, ends_in, answer_of, reported_by, replaced_by, Advanced, SameParts};
ghost use Rattle.outcomes.specs.Waiting.{leading};

use crate::records::Records;
use crate::search::{Halves, Progress, Ran, Search};
use enclosures::enclosure::{Enclosure, row_by};
use grains::interval::Interval;
use outcomes::reading::{Reading, Report, Stop};
use outcomes::record::{Entered, Record};
use outcomes::refusal::SearchRefusal;
use partition::marks::{End, Marks};
use partition::rule::Rule;
use std::alloc::{AllocError, Global};
use systems::system::System;

// Why a run ends where the search is settled or not, and full or not.
fn stop_at(settled: bool, full: bool) -> Stop
    ensures { result ≡ (if settled then stop.Settled else (if full then stop.Full else stop.Budget)) }
{
    if settled {
        Stop::Settled
    } else if full {
        Stop::Full
    } else {
        Stop::Budget
    }
}

// Two records in the place of the leading one; those above the high figure are dropped. The room for them is a fact of three contracts and of
// no type: it holds only from the check in `halves` to this call.
#[tactic(auto, unfolding(outcomes::specs::Searching::replaced))]
fn replace(waiting: &mut Records, progress: Progress, halves: Halves) -> Progress
    requires { length waiting.old < 512 }
    ensures outcome { started_from result waiting.new ≡ replaced (started_from progress waiting.old) halves.low halves.high }
    ensures few { length waiting.new ≤ 512 }
{
    let high = progress.high.min(halves.low.high).min(halves.high.high);
    waiting.replace_leading(halves.low.waiting, halves.high.waiting);
    waiting.drop_above(high);
    Progress {
        component: progress.component,
        high,
        splits: progress.splits.saturating_add(1),
    }
}

impl<M: Enclosure + Drop, R: Rule + Drop> Search<M, R> {
    /// A search that is not started. Room for 512 records is taken here, and no later call wants memory.
    pub fn new(heap: Global, system: System, method: M, rule: R) -> Result<Search<M, R>, AllocError>
        ensures { IfOk result (λ s. (state_of s ≡ None) × (s.system ≡ system) × (s.method ≡ method) × (s.rule ≡ rule)) }
    {
        let waiting = Records::new(heap)?;
        Ok(Search {
            system,
            method,
            rule,
            progress: None,
            waiting,
        })
    }
}

// The clauses name the parts of the search each time, the meaning of its method, the answer of its rule and its table: so each call can be read
// against the definitions by itself.
impl<M: Enclosure, R: Rule> Search<M, R> {
    // Whether a component, counted from 1, is there.
    fn has_component(&self, component: usize) -> bool
        ensures { result ≡ (nat_le 1 component && nat_le component (table_of self.now.system).size) }
    {
        (1..=self.system.size()).contains(&component)
    }

    // A component, counted from 0, of the method's row for a system.
    fn figures(&self, system: &System, component: usize) -> Result<Interval, SearchRefusal>
        ensures { ends_in result ≡ figures_of component (M.Enclosure.meaning self.now.method (table_of system.now)) }
    {
        let row = row_by(&self.method, system)?;
        Ok(row.get(component).copied().unwrap_or(Interval::zero()))
    }

    // The record of a box, and the high figure of its midpoint system.
    #[tactic(auto, unfolding(outcomes::specs::Searching::entered))]
    fn enter(&self, component: usize, marks: Marks) -> Result<Entered, SearchRefusal>
        ensures { result ≡ entered (M.Enclosure.meaning self.now.method) (table_of self.now.system) component marks }
    {
        let inner = marks.boxed(&self.system);
        let low = self.figures(&inner, component)?.low();
        let middle = inner.midpoint();
        let high = self.figures(&middle, component)?.high();
        Ok(Entered {
            waiting: Record { low, marks },
            high,
        })
    }

    // The place that the rule answers for a box, by the method's row there.
    fn place_by(&self, inner: &System) -> Result<usize, SearchRefusal>
        ensures { result ≡ place_by (R.Rule.answer self.now.rule) (table_of inner.now) (M.Enclosure.meaning self.now.method (table_of inner.now)) }
    {
        let row = row_by(&self.method, inner)?;
        self.rule
            .choose(inner, &row[..inner.size()])
            .ok_or(SearchRefusal::Settled)
    }

    // Whether the leading box has no wide entry.
    fn is_settled(&self) -> bool
        ensures { result ≡ (wide_entries (box (table_of self.now.system) (leading self.now.waiting).marks) == 0) }
    {
        self.waiting
            .leading()
            .marks
            .boxed(&self.system)
            .wide_entries()
            == 0
    }

    #[tactic(auto, unfolding(outcomes::specs::Searching::settled, outcomes::specs::Searching::reading_of))]
    fn reading_of(&self, progress: Progress) -> Reading
        ensures { result ≡ reading_of (table_of self.now.system) (started_from progress self.now.waiting) }
    {
        Reading {
            low: self.waiting.leading().low,
            high: progress.high,
            waiting: self.waiting.len(),
            splits: progress.splits,
            settled: self.is_settled(),
        }
    }

    /// Starts the search for a component, counted from 1. It is refused with 22 where it is started already, with 5 where there is no
    /// such component, and with the method's fault.
    #[tactic(auto, unfolding(outcomes::specs::Searching::start_of))]
    pub fn start(&mut self, component: usize) -> Result<Reading, SearchRefusal>
        ensures outcome { (answer_of result, state_of self.new) ≡ step (M.Enclosure.meaning self.old.method) (R.Rule.answer self.old.rule) (table_of self.old.system) (start component) (state_of self.old) }
        ensures same { SameParts self.old self.new }
    {
        if self.progress.is_some() {
            return Err(SearchRefusal::AlreadyStarted);
        }
        if !self.has_component(component) {
            return Err(SearchRefusal::ComponentOutOfRange);
        }
        let first = self.enter(component - 1, Marks::none())?;
        let progress = Progress {
            component: component - 1,
            high: first.high,
            splits: 0,
        };
        self.waiting.restart(first.waiting);
        self.progress = Some(progress);
        Ok(self.reading_of(progress))
    }

    // The two records that a split enters.
    #[tactic(auto, unfolding(outcomes::specs::Searching::settled, outcomes::specs::Searching::full, outcomes::specs::Searching::place_of, outcomes::specs::Searching::opened_at, outcomes::specs::Searching::split_of))]
    fn halves(&self, progress: Progress) -> Result<Halves, SearchRefusal>
        ensures outcome { replaced_by (started_from progress self.now.waiting) result ≡ split_of (M.Enclosure.meaning self.now.method) (R.Rule.answer self.now.rule) (table_of self.now.system) (started_from progress self.now.waiting) }
        ensures room { is_ok result ≡ true → length self.now.waiting < 512 }
    {
        if self.is_settled() {
            return Err(SearchRefusal::Settled);
        }
        if self.waiting.is_full() {
            return Err(SearchRefusal::Full);
        }
        let marks = self.waiting.leading().marks;
        let place = self.place_by(&marks.boxed(&self.system))?;
        let low = self.enter(progress.component, marks.fix(place, End::Low))?;
        let high = self.enter(progress.component, marks.fix(place, End::High))?;
        Ok(Halves { low, high })
    }

    // One split, without its reading.
    fn advance(&mut self) -> Result<Progress, SearchRefusal>
        ensures outcome { Advanced result self.old self.new (tried (M.Enclosure.meaning self.old.method) (R.Rule.answer self.old.rule) (table_of self.old.system) (state_of self.old)) }
        ensures same { SameParts self.old self.new }
    {
        let progress = self.progress.ok_or(SearchRefusal::NotStarted)?;
        let halves = self.halves(progress)?;
        let next = replace(&mut self.waiting, progress, halves);
        self.progress = Some(next);
        Ok(next)
    }

    /// Splits the leading box in two. It is refused with 21 where the search is not started, with 23 where it is settled, and with 24
    /// where 512 records wait.
    pub fn split(&mut self) -> Result<Reading, SearchRefusal>
        ensures outcome { (answer_of result, state_of self.new) ≡ step (M.Enclosure.meaning self.old.method) (R.Rule.answer self.old.rule) (table_of self.old.system) split (state_of self.old) }
        ensures same { SameParts self.old self.new }
    {
        let next = self.advance()?;
        Ok(self.reading_of(next))
    }

    // Splits until one is refused or the budget is used.
    fn run_on(&mut self, progress: Progress, budget: u32) -> Ran
        requires { self.old.progress ≡ Some progress }
        ensures outcome { (result.made, started_from result.progress self.new.waiting) ≡ run_of (M.Enclosure.meaning self.old.method) (R.Rule.answer self.old.rule) (table_of self.old.system) budget (started_from progress self.old.waiting) }
        ensures state { self.new.progress ≡ Some result.progress }
        ensures same { SameParts self.old self.new }
    {
        let mut current = progress;
        for made in 0..budget {
            match self.advance() {
                Ok(next) => current = next,
                Err(_) => {
                    return Ran {
                        made,
                        progress: current,
                    };
                }
            }
        }
        Ran {
            made: budget,
            progress: current,
        }
    }

    // What a run reports that ends here.
    #[tactic(auto, unfolding(outcomes::specs::Searching::full, outcomes::specs::Searching::reading_of, outcomes::specs::Searching::stop_of))]
    fn report(&self, ran: Ran) -> Report
        ensures { result ≡ report_of (table_of self.now.system) (ran.made, started_from ran.progress self.now.waiting) }
    {
        let reading = self.reading_of(ran.progress);
        Report {
            reading,
            made: ran.made,
            stop: stop_at(reading.settled, self.waiting.is_full()),
        }
    }

    /// Splits until the search is settled, 512 records wait or the budget is used. It is refused with 21 where the search is not
    /// started, and never otherwise.
    pub fn run(&mut self, budget: u32) -> Result<Report, SearchRefusal>
        ensures outcome { (reported_by result, state_of self.new) ≡ step (M.Enclosure.meaning self.old.method) (R.Rule.answer self.old.rule) (table_of self.old.system) (run budget) (state_of self.old) }
        ensures same { SameParts self.old self.new }
    {
        let progress = self.progress.ok_or(SearchRefusal::NotStarted)?;
        let ran = self.run_on(progress, budget);
        Ok(self.report(ran))
    }

    /// The search as it stands. It is refused with 21 where the search is not started.
    pub fn reading(&self) -> Result<Reading, SearchRefusal>
        ensures outcome { (answer_of result, state_of self.now) ≡ step (M.Enclosure.meaning self.now.method) (R.Rule.answer self.now.rule) (table_of self.now.system) read (state_of self.now) }
        ensures promise { Promised (M.Enclosure.meaning self.now.method) (R.Rule.answer self.now.rule) (table_of self.now.system) result (state_of self.now) }
    {
        let progress = self.progress.ok_or(SearchRefusal::NotStarted)?;
        Ok(self.reading_of(progress))
    }
}
