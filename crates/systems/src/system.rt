//! Systems: they are made by closing a draft or as the midpoint or a box of another system, and never edited.
use crate::draft::Draft;

mod methods;

/// A closed system of 1 to 6 rows.
#[derive(Clone, Copy)]
pub struct System {
    pub(crate) draft: Draft,
}
