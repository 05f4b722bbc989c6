//! Interval Gaussian elimination, in exact grain arithmetic and without exchanging rows.
ghost use Rattle.std.specs.Prelude.{◌≡◌, ◌≤◌, map, length};
ghost use Rattle.std.specs.List.{range_with_len};
ghost use Rattle.std.specs.Result.{result_map_both};
ghost use Rattle.algebra.specs.Chaining.{Leaves, each, each_with};
ghost use Rattle.grains.specs.Arithmetic.{ends_of, answer_of};
ghost use Rattle.systems.specs.Tables.{table_of};
ghost use Rattle.enclosures.specs.Elimination.{less_multiple, solved_of, reduced_of, eliminated, row_of, elimination_of};
ghost use Rattle.enclosures.specs.Working.{viewed};
ghost use Rattle.enclosures.specs.Narrowing.{elimination_shaped, elimination_narrows};
ghost use Rattle.enclosures.specs.Bounds.{solvable_from, agreed_from, enclosed_from};
ghost use Rattle.enclosures.specs.PointRows.{elimination_bounds};

use crate::enclosure::Enclosure;
use crate::equation::Equation;
use crate::fault::Fault;
use crate::line::Line;
use crate::working::{less_multiple, less_products};
use arrayvec::ArrayVec;
use grains::interval::{ArithmeticError, Interval};
use systems::system::System;

// Coefficients of a line, less m times those of the pivot line.
fn reduced_coefficients(
    m: Interval,
    line: &[Interval],
    pivot: &[Interval],
) -> Result<ArrayVec<Interval, 6>, ArithmeticError>
    requires { length line.now ≤ 6 }
    ensures { result_map_both (λ cs. map ends_of cs.items) (λ e. e) result ≡ each_with (less_multiple (ends_of m)) (map ends_of line.now) (map ends_of pivot.now) }
{
    // A loop: the steps may be refused, and the room of six is known here.
    let mut coefficients = ArrayVec::new();
    for (old, by) in line.iter().zip(pivot) {
        coefficients.push(less_multiple(m, *old, *by)?);
    }
    Ok(coefficients)
}

// The line without its first unknown, cleared by the pivot line.
#[tactic(auto, unfolding(crate::specs::Elimination::reduced_of))]
fn reduced(pivot: &Line, line: &Line) -> Result<Line, ArithmeticError>
    ensures { result_map_both viewed (λ e. e) result ≡ reduced_of (viewed pivot.now) (viewed line.now) }
{
    let m = line.lead().quotient(pivot.lead())?;
    let coefficients = reduced_coefficients(m, line.rest(), pivot.rest())?;
    let right = less_multiple(m, line.right, pivot.right)?;
    Ok(Line {
        coefficients,
        right,
    })
}

// The component of the first unknown of a line, from those of the others.
#[tactic(auto, unfolding(crate::specs::Elimination::solved_of))]
fn solved(pivot: &Line, others: &[Interval]) -> Result<Interval, ArithmeticError>
    ensures { answer_of result ≡ solved_of (viewed pivot.now) (map ends_of others.now) }
{
    less_products(pivot.right, pivot.rest(), others)?.quotient(pivot.lead())
}

// Clears the first unknown of the lines by the pivot line.
fn clear_column(pivot: &Line, lines: &mut [Line]) -> Result<(), ArithmeticError>
    ensures { Leaves result (map viewed lines.new) (each (reduced_of (viewed pivot.now)) (map viewed lines.old)) }
{
    for line in lines.iter_mut() {
        *line = reduced(pivot, line)?;
    }
    Ok(())
}

// The components of as many lines as there are unknowns left.
fn solve(lines: &mut [Line], components: &mut [Interval]) -> Result<(), ArithmeticError>
    requires { length lines.old ≡ length components.old }
    ensures { Leaves result (map ends_of components.new) (eliminated (length lines.old) (map viewed lines.old)) }
{
    let Some((pivot, rest)) = lines.split_first_mut() else {
        return Ok(());
    };
    let Some((component, others)) = components.split_first_mut() else {
        return Ok(());
    };
    if pivot.lead().contains_zero() {
        return Err(ArithmeticError::DivisorContainsZero);
    }
    clear_column(pivot, rest)?;
    solve(rest, others)?;
    *component = solved(pivot, others)?;
    Ok(())
}

// The rows of a system as lines.
fn lines(system: &System) -> ArrayVec<Line, 6>
    ensures { map viewed result.items ≡ map (row_of (table_of system.now)) (range_with_len 0 (table_of system.now).size) }
{
    // A loop: `collect` and `extend` may answer that there is no room, which the caller of `lines` could only drop.
    let mut lines = ArrayVec::new();
    for row in 0..system.size() {
        lines.push(Line::new(&Equation { system, row }));
    }
    lines
}

/// Interval Gaussian elimination.
#[derive(Clone, Copy)]
pub struct Elimination;

impl Enclosure for Elimination {
    ghost meaning = { λ _. elimination_of };

    ghost shaped = { λ m. elimination_shaped };

    ghost solvable = { λ m. solvable_from elimination_of elimination_bounds };

    ghost agreed = { λ m. agreed_from elimination_of elimination_bounds };

    ghost enclosed = { λ m. enclosed_from elimination_of elimination_bounds };

    ghost narrowing = { λ m. elimination_narrows };

    /// Writes an interval for each component of the system's solutions into the first places of the row, one for each row of
    /// the system. A refusal, 6 for a pivot that contains 0 and 7 for a step that leaves the span, changes none of the six.
    fn enclose(&self, system: &System, row: &mut [Interval; 6]) -> Result<(), Fault> {
        let n = system.size();
        let mut components = [Interval::zero(); 6];
        solve(lines(system).as_mut_slice(), &mut components[..n])?;
        row[..n].copy_from_slice(&components[..n]);
        Ok(())
    }
}
