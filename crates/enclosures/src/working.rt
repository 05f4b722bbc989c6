//! What the methods share: the steps on rows of a system in grains.
ghost use Rattle.std.specs.Prelude.{◌≡◌, map};
ghost use Rattle.grains.specs.Arithmetic.{ends_of, answer_of};
ghost use Rattle.enclosures.specs.Elimination.{less_multiple, less_products};

use grains::interval::{ArithmeticError, Interval};

// `a - m * b`.
#[tactic(auto, unfolding(crate::specs::Elimination::less_multiple))]
pub fn less_multiple(m: Interval, a: Interval, b: Interval) -> Result<Interval, ArithmeticError>
    ensures { answer_of result ≡ less_multiple (ends_of m) (ends_of a) (ends_of b) }
{
    a.difference(m.product(b)?)
}

// `start` less the products of coefficients and components, side by side.
pub fn less_products(
    start: Interval,
    coefficients: &[Interval],
    components: &[Interval],
) -> Result<Interval, ArithmeticError>
    ensures { answer_of result ≡ less_products (ends_of start) (map ends_of coefficients.now) (map ends_of components.now) }
{
    let mut rest = start;
    for (coefficient, component) in coefficients.iter().zip(components) {
        rest = less_multiple(*coefficient, rest, *component)?;
    }
    Ok(rest)
}
