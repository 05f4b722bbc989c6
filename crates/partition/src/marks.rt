//! Marks: which entries of a system are fixed, and at which end. They make a box of it.
ghost use Rattle.std.specs.Prelude.{◌≡◌, ◌^◌, ◌<◌, count_ones};
ghost use Rattle.systems.specs.Boxes.{box_of};
ghost use Rattle.systems.specs.Tables.{table_of};
ghost use Rattle.partition.specs.Boxing.{unmarked};
ghost use Rattle.partition.specs.Marking.{marks_of, open_at, fixed_at};

use systems::marks::has_mark;
use systems::system::System;

/// One of the two ends of an entry.
#[derive(Clone, Copy, PartialEq, Eq, Debug)]
pub enum End {
    Low,
    High,
}

/// One bit for each place in each of two numbers: whether the entry is fixed, and whether at its high end.
#[derive(Clone, Copy, PartialEq, Eq, Debug)]
pub struct Marks {
    fixed: u64,
    ends: u64,
}

// The number whose only bit is that of a place.
fn power_of_two(place: usize) -> u64
    requires { place < 64 }
    ensures { result ≡ 2 ^ place }
{
    1u64 << place
}

impl Marks {
    /// No entry is fixed.
    pub fn none() -> Marks
        ensures { marks_of result ≡ unmarked }
    {
        Marks { fixed: 0, ends: 0 }
    }

    // Whether a place is one of the 64 and has no bit in either number.
    #[tactic(auto, unfolding(crate::specs::Marking::open_at))]
    fn is_open(self, place: usize) -> bool
        ensures { result ≡ open_at (marks_of self) place }
    {
        place < 64 && !has_mark(self.fixed, place) && !has_mark(self.ends, place)
    }

    /// The marks with the entry at a place fixed at an end. They stay as they are where the place has a mark already, or is none of
    /// the 64.
    pub fn fix(self, place: usize, end: End) -> Marks
        ensures { marks_of result ≡ fixed_at (marks_of self) place end }
    {
        if !self.is_open(place) {
            return self;
        }
        let power = power_of_two(place);
        match end {
            End::Low => Marks {
                fixed: self.fixed + power,
                ends: self.ends,
            },
            End::High => Marks {
                fixed: self.fixed + power,
                ends: self.ends + power,
            },
        }
    }

    /// How many entries are fixed: the number of splits behind a box.
    pub fn count(self) -> u32
        ensures { result ≡ count_ones (marks_of self).fixed }
    {
        self.fixed.count_ones()
    }

    /// The box of a system: its fixed entries thin at their ends, the others as they are.
    pub fn boxed(self, system: &System) -> System
        ensures { table_of result ≡ box_of (marks_of self) (table_of system.now) }
    {
        system.boxed(self.fixed, self.ends)
    }
}
