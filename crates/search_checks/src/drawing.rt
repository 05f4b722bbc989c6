//! Systems at random.
ghost use Rattle.std.specs.Prelude.{pos, neg_ℤ, ◌≤ℤ◌};

use systems::draft::Draft;
use systems::refusal::Refusal;
use systems::system::System;
use trials::part::Part;
use trials::random::Random;

/// A system of 1 to 4 rows with at most six wide entries, mostly with a dominant diagonal; every end is from -60 to 60.
pub(crate) fn system_of_few_corners(random: &mut Random) -> Result<System, Refusal> {
    let mut draft = Draft::new();
    draft.renew(1 + random.up_to(3) as usize)?;
    let sparse = random.up_to(1) == 0;
    // By place: the draft is written while its places are walked.
    for place in 0..draft.places() {
        let value = any_number(random, Part::of(&draft, place), sparse);
        draft.set(place, value, value)?;
    }
    let wide = random.up_to(6).max(random.up_to(6));
    for _ in 0..wide {
        widen(random, &mut draft)?;
    }
    Ok(draft.close())
}

// The number of an entry; of a sparse system most entries beside the diagonal are 0.
fn any_number(random: &mut Random, part: Part, sparse: bool) -> i32 {
    match part {
        Part::Diagonal => any_diagonal(random),
        Part::Right => 8 * random.between(-5, 5),
        Part::Beside if sparse && random.up_to(3) > 0 => 0,
        Part::Beside => random.between(-3, 3),
    }
}

// A diagonal entry: often a power of 2, so that quotients are exact, and sometimes near 0.
fn any_diagonal(random: &mut Random) -> i32 {
    match random.up_to(7) {
        0 => random.between(-6, 6),
        1 => -16,
        2 | 3 => 8,
        _ => random.between(5, 16),
    }
}

// Makes a random entry wide: its high end is 1, 2 or 8 above its low end.
fn widen(random: &mut Random, draft: &mut Draft) -> Result<(), Refusal> {
    let place = random.up_to((draft.places() - 1) as u32) as usize;
    let width = any_width(random);
    if let Some(entry) = draft.entry(place) {
        draft.set(place, entry.low(), entry.low() + width)?;
    }
    Ok(())
}

fn any_width(random: &mut Random) -> i32
    ensures above { pos 1 ≤ℤ result }
    ensures below { result ≤ℤ pos 8 }
{
    if random.up_to(2) == 0 {
        8
    } else {
        random.between(1, 2)
    }
}
