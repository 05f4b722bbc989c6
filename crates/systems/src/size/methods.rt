//! How sizes are made and read.
ghost use Rattle.std.specs.Prelude.{◌≡◌, ◌*◌, ◌+◌, ◌≤◌};
ghost use Rattle.std.specs.Result.{result_map_both};
ghost use Rattle.systems.specs.Tables.{size_of};

use crate::draft::MOST_ROWS;
use crate::refusal::Refusal;
use crate::size::Size;

impl Size {
    /// One row.
    pub(crate) fn one() -> Size
        ensures { result.rows ≡ 1 }
    {
        Size { rows: 1 }
    }

    /// The size of so many rows; it is refused with 1 where they are not from 1 to 6.
    #[tactic(auto, unfolding(crate::specs::Tables::size_of))]
    pub(crate) fn new(rows: usize) -> Result<Size, Refusal>
        ensures { result_map_both (λ s. s.rows) (λ e. e) result ≡ size_of rows }
    {
        if (1..=MOST_ROWS).contains(&rows) {
            Ok(Size { rows })
        } else {
            Err(Refusal::SizeOutOfRange)
        }
    }

    pub(crate) fn rows(self) -> usize
        ensures value { result ≡ self.rows }
        ensures some { 1 ≤ result }
        ensures few { result ≤ 6 }
    {
        self.rows
    }

    /// The number of places: each row has one more entry than there are rows.
    pub(crate) fn places(self) -> usize
        ensures value { result ≡ self.rows * (self.rows + 1) }
        ensures bound { result ≤ 42 }
    {
        self.rows * (self.rows + 1)
    }
}
