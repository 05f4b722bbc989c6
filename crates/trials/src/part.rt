//! The parts of a system.
ghost use Rattle.std.specs.Prelude.{◌≡◌};
ghost use Rattle.systems.specs.Tables.{drafted};
ghost use Rattle.trials.specs.Parts.{part_of};

use systems::draft::Draft;

/// What an entry belongs to.
#[derive(Clone, Copy, PartialEq, Eq, Debug)]
pub enum Part {
    /// The diagonal of the matrix.
    Diagonal,
    /// The rest of the matrix.
    Beside,
    /// The right-hand side.
    Right,
}

impl Part {
    /// The part in which a place of a draft stands.
    pub fn of(draft: &Draft, place: usize) -> Part
        ensures { result ≡ part_of (drafted draft.now).size place }
    {
        let size = draft.size();
        let row = place / (size + 1);
        let column = place % (size + 1);
        if column == size {
            Part::Right
        } else if column == row {
            Part::Diagonal
        } else {
            Part::Beside
        }
    }
}
