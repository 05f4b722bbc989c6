//! What an enclosure method is, and what it owes. A maker's own method implements this trait.
ghost use Rattle.std.specs.Prelude.{◌≡◌, map};
ghost use Rattle.std.specs.Result.{result_map_both};
ghost use Rattle.grains.specs.Arithmetic.{ends_of};
ghost use Rattle.systems.specs.Tables.{Table, table_of};
ghost use Rattle.enclosures.specs.Methods.{Shaped, Solvable, Agreed, Enclosed, Narrowing};
ghost use Rattle.enclosures.specs.Verdicts.{Verdict, Encloses, six_of};

use crate::fault::Fault;
use grains::interval::Interval;
use systems::system::System;

/// A way to enclose the solutions of every point system inside an interval linear system.
pub trait Enclosure {
    // What the method answers: a function of the system's table alone.
    ghost meaning: { Self → Table → Verdict };

    /// Writes the row of an accepted system into the first places, one for each component, or answers the fault and changes nothing.
    // Six places of the caller, for a system of any size: memory is fixed by a rule of this project.
    fn enclose(&self, system: &System, row: &mut [Interval; 6]) -> Result<(), Fault>
        ensures { Encloses result row.old row.new (meaning self.now (table_of system.now)) };

    // A row has an interval inside the span for each component.
    ghost shaped: { (m : Self) → Shaped (meaning m) };

    // Every point system inside an accepted system has a rational solution.
    ghost solvable: { (m : Self) → Solvable (meaning m) };

    // All rational solutions of one point system inside it have equal components.
    ghost agreed: { (m : Self) → Agreed (meaning m) };

    // Each component of each of them lies in its interval, ends included.
    ghost enclosed: { (m : Self) → Enclosed (meaning m) };

    // A narrower system is accepted too, and each interval of its row lies within the wider one's.
    ghost narrowing: { (m : Self) → Narrowing (meaning m) };
}

/// The method's row for an accepted system, [0, 0] in the places behind its components; or the fault.
pub fn row_by<M: Enclosure>(method: &M, system: &System) -> Result<[Interval; 6], Fault>
    ensures { result_map_both (map ends_of) (λ e. e) result ≡ six_of (M.Enclosure.meaning method.now (table_of system.now)) }
{
    let mut row = [Interval::zero(); 6];
    method.enclose(system, &mut row)?;
    Ok(row)
}
