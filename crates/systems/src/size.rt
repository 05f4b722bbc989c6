//! Sizes of systems.
ghost use Rattle.std.specs.Prelude.{◌≤◌};

mod methods;

/// How many rows a system has. That there are 1 to 6 is said again by the public calls that answer it, for callers know no more of them.
#[derive(Clone, Copy)]
pub(crate) struct Size {
    rows: usize,
    ghost some: { 1 ≤ rows },
    ghost few: { rows ≤ 6 },
}
