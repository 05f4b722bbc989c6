//! Why the checks end early.
use outcomes::refusal::SearchRefusal;
use std::alloc::{AllocError, AllocFailed};
use std::io;
use systems::refusal::Refusal;

#[derive(Debug, Drop)]
pub(crate) enum Failure {
    Refused(Refusal),
    SearchRefused(SearchRefusal),
    Memory,
    Printing(io::Error),
}

impl From<Refusal> for Failure {
    fn from(refusal: Refusal) -> Failure {
        Failure::Refused(refusal)
    }
}

impl From<SearchRefusal> for Failure {
    fn from(refusal: SearchRefusal) -> Failure {
        Failure::SearchRefused(refusal)
    }
}

impl From<AllocError> for Failure {
    fn from(_error: AllocError) -> Failure {
        Failure::Memory
    }
}

impl<T: Drop> From<AllocFailed<T>> for Failure {
    fn from(_error: AllocFailed<T>) -> Failure {
        Failure::Memory
    }
}

impl From<io::Error> for Failure {
    fn from(error: io::Error) -> Failure {
        Failure::Printing(error)
    }
}
