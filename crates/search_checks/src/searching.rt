//! Random searches by each method and each rule, and one that comes to 512 waiting records.
use crate::drawing::system_of_few_corners;
use crate::failure::Failure;
use crate::searching::calls::random_call;
use crate::searching::tally::Tally;
use crate::searching::watched::Watched;
use enclosures::elimination::Elimination;
use enclosures::enclosure::Enclosure;
use enclosures::row_sums::RowSums;
use enclosures::sweep::Sweep;
use outcomes::refusal::SearchRefusal;
use partition::rule::Rule;
use partition::rules::{Heaviest, Widest};
use searches::search::Search;
use std::alloc::Global;
use systems::draft::Draft;
use systems::refusal::Refusal;
use systems::system::System;
use trials::random::Random;

mod calls;
mod tally;
mod watched;

/// How many systems each method and rule get, and how many calls each search.
const SYSTEMS: u32 = 1000;

const CALLS: u32 = 12;

// The same systems and calls for every method and rule.
fn check<M: Enclosure + Copy, R: Rule + Copy>(
    heap: Global,
    method: M,
    rule: R,
) -> Result<Tally, Failure> {
    let mut random = Random::new(40427);
    let mut tally = Tally::default();
    for _ in 0..SYSTEMS {
        let system = system_of_few_corners(&mut random)?;
        let mut watched = Watched::new(heap, system, method, rule)?;
        for turn in 0..CALLS {
            let call = random_call(&mut random, &system, turn);
            watched.call(call, &mut tally);
        }
        watched.close(&mut tally);
    }
    Ok(tally)
}

fn check_rules<M: Enclosure + Copy>(
    rt: &HostRuntime,
    method: M,
    name: &str,
) -> Result<(), Failure> {
    let tally = check(rt.alloc(), method, Widest)?;
    println!(rt; "{name}, widest: {tally}")?;
    let tally = check(rt.alloc(), method, Heaviest)?;
    println!(rt; "{name}, heaviest: {tally}")?;
    Ok(())
}

// Ten wide entries, and every solution is 0.
fn even_system() -> Result<System, Refusal> {
    let mut draft = Draft::new();
    draft.renew(4)?;
    for place in [0usize, 6, 12, 18] {
        draft.set(place, 8, 9)?;
    }
    for place in [1usize, 2, 3, 5, 7, 8] {
        draft.set(place, 0, 1)?;
    }
    Ok(draft.close())
}

// Splits until a split is refused, at most 1024 times: how many were made, and the refusal.
fn split_to_the_end<M: Enclosure, R: Rule>(
    search: &mut Search<M, R>,
) -> Option<(u32, SearchRefusal)> {
    (0..1024u32).find_map(|splits| search.split().err().map(|refusal| (splits, refusal)))
}

// Fills a search up with waiting records.
fn fill_up(rt: &HostRuntime) -> Result<(), Failure> {
    let mut search = Search::new(rt.alloc(), even_system()?, Elimination, Widest)?;
    search.start(1)?;
    if let Some((splits, refusal)) = split_to_the_end(&mut search) {
        let number = refusal.number();
        let waiting = search.reading()?.waiting;
        println!(rt; "full: {splits} splits, then {number}, {waiting} waiting")?;
    }
    Ok(())
}

/// Checks and shows every method with every rule, and the search that is filled up.
pub(crate) fn check_all(rt: &HostRuntime) -> Result<(), Failure> {
    check_rules(rt, Elimination, "elimination")?;
    check_rules(rt, RowSums, "row sums")?;
    check_rules(
        rt,
        Sweep { below: Elimination },
        "elimination under a sweep",
    )?;
    check_rules(rt, Sweep { below: RowSums }, "row sums under a sweep")?;
    fill_up(rt)
}
