//! A method of a maker's own, as an example: a system of one row is solved by one division, and any other is refused.
#![tactic(auto)]

ghost use Rattle.own_method.specs.Division.{division_of};
ghost use Rattle.own_method.specs.Agreement.{division_shaped, division_solvable, division_agreed, division_enclosed, division_narrows};

use enclosures::enclosure::Enclosure;
use enclosures::fault::Fault;
use enclosures::scaling::in_grains_at;
use grains::interval::Interval;
use systems::system::System;

/// The right-hand entry over the matrix entry. It refuses with 6 and 7 as elimination does, and with 101 where the size is not 1.
#[derive(Clone, Copy)]
pub struct Division;

impl Enclosure for Division {
    ghost meaning = { λ _. division_of };

    ghost shaped = { λ m. division_shaped };

    ghost solvable = { λ m. division_solvable };

    ghost agreed = { λ m. division_agreed };

    ghost enclosed = { λ m. division_enclosed };

    ghost narrowing = { λ m. division_narrows };

    fn enclose(&self, system: &System, row: &mut [Interval; 6]) -> Result<(), Fault> {
        if system.size() != 1 {
            return Err(Fault { number: 101 });
        }
        row[0] = in_grains_at(system, 1).quotient(in_grains_at(system, 0))?;
        Ok(())
    }
}
