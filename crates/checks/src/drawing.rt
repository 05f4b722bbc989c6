//! Systems and corners at random.
ghost use Rattle.std.specs.Prelude.{pos, neg_ℤ, ◌≤ℤ◌};

use systems::draft::Draft;
use systems::entry::Entry;
use systems::refusal::Refusal;
use systems::system::System;
use trials::corner::Corner;
use trials::part::Part;
use trials::random::Random;

// The low end of an entry; a diagonal one is mostly greater than the others.
fn any_low(random: &mut Random, part: Part) -> i32
    ensures above { neg_ℤ (pos 12) ≤ℤ result }
    ensures below { result ≤ℤ pos 16 }
{
    match part {
        Part::Diagonal => random.between(-4, 16),
        Part::Beside => random.between(-4, 4),
        Part::Right => 3 * random.between(-4, 4),
    }
}

// How far an entry's high end is above its low end.
fn any_width(random: &mut Random, part: Part) -> i32
    ensures above { pos 0 ≤ℤ result }
    ensures below { result ≤ℤ pos 3 }
{
    match part {
        Part::Diagonal => random.between(0, 3),
        Part::Beside | Part::Right => random.between(0, 2),
    }
}

/// A system of 1 to 4 rows, mostly with a dominant diagonal.
pub(crate) fn any_system(random: &mut Random) -> Result<System, Refusal> {
    let mut draft = Draft::new();
    draft.renew(1 + random.up_to(3) as usize)?;
    // By place: the draft is written while its places are walked.
    for place in 0..draft.places() {
        let part = Part::of(&draft, place);
        let low = any_low(random, part);
        draft.set(place, low, low + any_width(random, part))?;
    }
    Ok(draft.close())
}

/// A system narrower than the given one: some entries have an end moved inwards.
pub(crate) fn narrower(random: &mut Random, system: &System) -> Result<System, Refusal> {
    let mut draft = Draft::new();
    draft.renew(system.size())?;
    for (place, entry) in system.entries().iter().enumerate() {
        let low = random.between(entry.low(), entry.high());
        let high = random.between(low, entry.high());
        draft.set(place, low, high)?;
    }
    Ok(draft.close())
}

// One of the two ends of an entry.
fn any_end(random: &mut Random, entry: Entry) -> i32 {
    if random.up_to(1) == 0 {
        entry.low()
    } else {
        entry.high()
    }
}

/// A corner of a system of at most four rows. Each row draws for the five places from its first on; those behind its own are drawn again
/// by the row after it.
pub(crate) fn any_corner(random: &mut Random, system: &System) -> Result<Corner, Refusal> {
    let mut draft = Draft::new();
    draft.renew(system.size())?;
    // By row and place: the random numbers have to come as they did when the stored output was made.
    for row in 0..4usize {
        let first = row * (system.size() + 1);
        for place in first..first + 5 {
            if let Some(entry) = system.entry(place) {
                let end = any_end(random, entry);
                draft.set(place, end, end)?;
            }
        }
    }
    Ok(Corner::at_low(draft.close()))
}
