//! Random numbers, the same at every run.
ghost use Rattle.std.specs.Prelude.{◌≡◌, ◌≤◌, ◌≤ℤ◌};
ghost use Rattle.std.specs.Int.{int_min, int_max};
ghost use Rattle.trials.specs.Draws.{state_of, next, drawn, number_between};

/// A linear congruential generator.
#[derive(Clone, Copy, PartialEq, Eq, Debug)]
pub struct Random {
    state: u64,
}

impl Random {
    /// The generator that starts from a seed.
    pub fn new(seed: u64) -> Random
        ensures { state_of result ≡ seed }
    {
        Random { state: seed }
    }

    /// A number from 0 to `most`.
    pub fn up_to(&mut self, most: u32) -> u32
        ensures state { state_of self.new ≡ next (state_of self.old) }
        ensures value { result ≡ drawn (state_of self.new) most }
        ensures within { result ≤ most }
    {
        self.state = self
            .state
            .wrapping_mul(6364136223846793005)
            .wrapping_add(1442695040888963407);
        ((self.state >> 33) % (u64::from(most) + 1)) as u32
    }

    // A number from `low` to `high`, which are in order.
    fn within(&mut self, low: i32, high: i32) -> i32
        requires { low ≤ℤ high }
        ensures state { state_of self.new ≡ next (state_of self.old) }
        ensures value { result ≡ number_between (state_of self.new) low high }
        ensures above { low ≤ℤ result }
        ensures below { result ≤ℤ high }
    {
        let step = self.up_to(high.abs_diff(low));
        (i64::from(low) + i64::from(step)) as i32
    }

    /// A number between two others, or one of them. They are given in either order.
    pub fn between(&mut self, one: i32, other: i32) -> i32
        ensures state { state_of self.new ≡ next (state_of self.old) }
        ensures value { result ≡ number_between (state_of self.new) (int_min one other) (int_max one other) }
        ensures above { int_min one other ≤ℤ result }
        ensures below { result ≤ℤ int_max one other }
    {
        self.within(one.min(other), one.max(other))
    }
}
