//! Promises that were not kept.
ghost use Rattle.std.specs.Prelude.{◌≡◌, Some, decimal};
ghost use Rattle.trials.specs.Counts.{violations_of, looked_at};

use std::fmt;

/// How many promises were found broken; it prints as that number.
#[derive(Clone, Copy, PartialEq, Eq, Default, Debug)]
pub struct Violations {
    count: u32,
}

impl Violations {
    /// Counts one where a promise is not kept.
    pub fn expect(&mut self, kept: bool)
        ensures { violations_of self.new ≡ looked_at kept (violations_of self.old) }
    {
        if !kept {
            self.count = self.count.saturating_add(1);
        }
    }
}

impl fmt::Display for Violations {
    ghost output = { λ v. Some (decimal (violations_of v)) };

    fn fmt<W: fmt::Write>(&self, f: &mut fmt::Formatter<W>) -> fmt::Result {
        write!(f, "{}", self.count)
    }
}
