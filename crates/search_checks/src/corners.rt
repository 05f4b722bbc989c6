//! The corners of a system: thin systems, one for each choice of an end in each wide entry.
use crate::failure::Failure;
use std::alloc::Global;
use systems::draft::Draft;
use systems::refusal::Refusal;
use systems::system::System;

/// All corners of a system.
pub(crate) fn corners_of(heap: Global, system: &System) -> Result<Vec<System>, Failure> {
    (0..count(system))
        .map(|number| thin(system, number).map_err(Failure::from))
        .try_collect(heap)
}

// How many corners a system has.
fn count(system: &System) -> u32 {
    (0..system.wide_entries()).fold(1u32, |count, _| count.saturating_mul(2))
}

// The corner with a number below their count. The wide entries take the number's bits in the order of their places, from the lowest bit;
// 1 is the high end.
fn thin(system: &System, number: u32) -> Result<System, Refusal> {
    let mut draft = Draft::new();
    draft.renew(system.size())?;
    let mut bits = number;
    for (place, entry) in system.entries().iter().enumerate() {
        let mut value = entry.low();
        if entry.is_wide() {
            if bits % 2 == 1 {
                value = entry.high();
            }
            bits /= 2;
        }
        draft.set(place, value, value)?;
    }
    Ok(draft.close())
}
