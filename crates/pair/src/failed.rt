ghost use Rattle.std.specs.Prelude.{◌≡◌};
ghost use Rattle.pair.specs.declared.failed.Failed.TheVariants.{NoMemory, Refused};

use faults::Fault;
use std::alloc::{AllocError, AllocFailed};

/// Why a call to both has no answer.
#[derive(Clone, Copy, PartialEq, Eq, Debug)]
pub enum Failed {
    /// Both refused it so.
    Refused(Fault),
    /// The list found no memory; the table was not asked.
    NoMemory,
    /// The two did not come to the same.
    Differ,
}

impl From<Fault> for Failed {
    ghost from_gives = { λ f r. r ≡ Refused f };

    fn from(fault: Fault) -> Failed {
        Failed::Refused(fault)
    }
}

// For what is made of an answer, with memory of its own.
impl From<AllocError> for Failed {
    ghost from_gives = { λ _ r. r ≡ NoMemory };

    fn from(_e: AllocError) -> Failed {
        Failed::NoMemory
    }
}

impl<T: Drop> From<AllocFailed<T>> for Failed {
    ghost from_gives = { λ _ r. r ≡ NoMemory };

    fn from(_e: AllocFailed<T>) -> Failed {
        Failed::NoMemory
    }
}
