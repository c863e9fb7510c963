ghost use Rattle.std.specs.Prelude.{◌≡◌};
ghost use Rattle.routes.specs.declared.failure.Failure.TheVariants.{Refused, NoMemory};

use faults::Fault;
use std::alloc::{AllocError, AllocFailed};

/// Why a call that needs memory failed: it was refused, or there was no memory; either way the list is as it was.
#[derive(Clone, Copy, PartialEq, Eq, Debug)]
pub enum Failure {
    Refused(Fault),
    NoMemory,
}

impl From<Fault> for Failure {
    ghost from_gives = { λ f r. r ≡ Refused f };

    fn from(fault: Fault) -> Failure {
        Failure::Refused(fault)
    }
}

// One for each of std's two errors of memory, which have no trait in common.
impl From<AllocError> for Failure {
    ghost from_gives = { λ _ r. r ≡ NoMemory };

    fn from(_e: AllocError) -> Failure {
        Failure::NoMemory
    }
}

impl<T: Drop> From<AllocFailed<T>> for Failure {
    ghost from_gives = { λ _ r. r ≡ NoMemory };

    fn from(_e: AllocFailed<T>) -> Failure {
        Failure::NoMemory
    }
}
