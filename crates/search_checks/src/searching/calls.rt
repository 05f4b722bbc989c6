//! The calls of a search.
use systems::system::System;
use trials::random::Random;

/// A call, with its component, counted from 1, or its budget.
#[derive(Clone, Copy, PartialEq, Eq, Debug)]
pub(crate) enum Call {
    Start(usize),
    Split,
    Run(u32),
    Read,
}

// The turn at which every search is started, if it was not before.
const START_TURN: u32 = 3;

// A start, also with a component that is not there.
fn any_start(random: &mut Random, system: &System) -> Call {
    Call::Start(random.up_to((system.size() + 1) as u32) as usize)
}

// A start with a component that is there.
fn good_start(random: &mut Random, system: &System) -> Call {
    Call::Start(1 + random.up_to((system.size() - 1) as u32) as usize)
}

fn any_run(random: &mut Random) -> Call {
    if random.up_to(9) == 0 {
        Call::Run(1000)
    } else {
        Call::Run(random.up_to(6))
    }
}

/// A random call at a turn, counted from 0, of a search over a system. At turn 3 it is a start with a component that is there.
pub(crate) fn random_call(random: &mut Random, system: &System, turn: u32) -> Call {
    if turn == START_TURN {
        return good_start(random, system);
    }
    match random.up_to(7) {
        0..=1 => any_start(random, system),
        2..=4 => Call::Split,
        5..=6 => any_run(random),
        _ => Call::Read,
    }
}
