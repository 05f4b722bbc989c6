//! The Gauss-Seidel sweep: a method above another method, whose row it narrows.
ghost use Rattle.std.specs.Prelude.{◌≡◌, ◌<◌, map, length};
ghost use Rattle.grains.specs.Arithmetic.{ends_of, answer_of};
ghost use Rattle.systems.specs.Tables.{table_of};
ghost use Rattle.enclosures.specs.Methods.{component_of};
ghost use Rattle.enclosures.specs.Sweeping.{solved_for, narrowed_by, swept_from, sweep_of};
ghost use Rattle.enclosures.specs.Working.{viewed};
ghost use Rattle.enclosures.specs.SweepLaws.{sweep_shaped, sweep_solvable, sweep_agreed, sweep_enclosed, sweep_narrows};

use crate::enclosure::Enclosure;
use crate::equation::Equation;
use crate::fault::Fault;
use crate::line::Line;
use crate::working::less_products;
use grains::interval::{ArithmeticError, Interval};
use systems::system::System;

// The line solved for unknown i by the other components.
fn solved_for(line: &Line, components: &[Interval], i: usize) -> Result<Interval, ArithmeticError>
    requires below { i < length components.now }
    requires same { length line.now.coefficients.items ≡ length components.now }
    ensures { answer_of result ≡ solved_for (viewed line.now) i (map ends_of components.now) }
{
    let coefficients = line.coefficients.as_slice();
    let before = less_products(line.right, &coefficients[..i], &components[..i])?;
    let rest = less_products(before, &coefficients[i + 1..], &components[i + 1..])?;
    rest.quotient(coefficients[i])
}

// Component i, narrowed by its line; as it was where a step has no answer.
fn narrowed(line: &Line, components: &[Interval], i: usize) -> Interval
    requires below { i < length components.now }
    requires same { length line.now.coefficients.items ≡ length components.now }
    ensures { ends_of result ≡ narrowed_by (component_of (map ends_of components.now) i) (solved_for (viewed line.now) i (map ends_of components.now)) }
{
    let old = components[i];
    match solved_for(line, components, i) {
        Ok(new) => old.common(new).unwrap_or(old),
        Err(_) => old,
    }
}

// Narrows each component in turn, using those that were narrowed before it.
fn narrow_all(system: &System, row: &mut [Interval])
    requires { length row.old ≡ (table_of system.now).size }
    ensures { map ends_of row.new ≡ swept_from (table_of system.now).size 0 (table_of system.now) (map ends_of row.old) }
{
    // By index: each step reads the whole row and writes one place of it.
    for i in 0..row.len() {
        row[i] = narrowed(&Line::new(&Equation { system, row: i }), row, i);
    }
}

/// One sweep above the method `below`.
#[derive(Clone, Copy)]
pub struct Sweep<M> {
    pub below: M,
}

impl<M: Enclosure> Enclosure for Sweep<M> {
    ghost meaning = { λ s. sweep_of (M.Enclosure.meaning s.below) };

    ghost shaped = { λ m.
        let v = M.Enclosure.meaning m.below in
        let law = M.Enclosure in
        sweep_shaped v (law.shaped m.below) (law.solvable m.below) (law.agreed m.below) (law.enclosed m.below) (law.narrowing m.below) };

    ghost solvable = { λ m.
        let v = M.Enclosure.meaning m.below in
        let law = M.Enclosure in
        sweep_solvable v (law.shaped m.below) (law.solvable m.below) (law.agreed m.below) (law.enclosed m.below) (law.narrowing m.below) };

    ghost agreed = { λ m.
        let v = M.Enclosure.meaning m.below in
        let law = M.Enclosure in
        sweep_agreed v (law.shaped m.below) (law.solvable m.below) (law.agreed m.below) (law.enclosed m.below) (law.narrowing m.below) };

    ghost enclosed = { λ m.
        let v = M.Enclosure.meaning m.below in
        let law = M.Enclosure in
        sweep_enclosed v (law.shaped m.below) (law.solvable m.below) (law.agreed m.below) (law.enclosed m.below) (law.narrowing m.below) };

    ghost narrowing = { λ m.
        let v = M.Enclosure.meaning m.below in
        let law = M.Enclosure in
        sweep_narrows v (law.shaped m.below) (law.solvable m.below) (law.agreed m.below) (law.enclosed m.below) (law.narrowing m.below) };

    /// The row of the method below, each component narrowed by the row of its unknown. It refuses exactly where that method does, with its fault.
    fn enclose(&self, system: &System, row: &mut [Interval; 6]) -> Result<(), Fault> {
        self.below.enclose(system, row)?;
        narrow_all(system, &mut row[..system.size()]);
        Ok(())
    }
}
