// What leaves in place of attributes. Where the list stands isn't known here.
ghost use Rattle.std.specs.Prelude.{◌≡◌};
ghost use Rattle.c_attrs.specs.declared.fault.AttrFault.TheVariants.{Memory};

use std::alloc::{AllocError, AllocFailed};
use thiserror::Error;

/// Why a list has no attributes. A number is the index in the list of the first bad item's word.
#[derive(Clone, Copy, Debug, PartialEq, Eq, Error)]
pub enum AttrFault {
    #[error("a space that isn't one identifier or one integer up to 4294967295")]
    BadSpace(u32),
    #[error("a context that isn't two integers, or words and two integers")]
    BadContext(u32),
    #[error("an alignment that isn't one power of 2 up to 65536")]
    BadAlign(u32),
    /// Some context has a number above 1,000,000.
    #[error("a context with a step above 1000000")]
    StepLimit,
    #[error("out of memory")]
    Memory,
}

impl From<AllocError> for AttrFault {
    ghost from_gives = { λ _ fault. fault ≡ Memory };

    fn from(_error: AllocError) -> AttrFault {
        AttrFault::Memory
    }
}

impl<T: Drop> From<AllocFailed<T>> for AttrFault {
    ghost from_gives = { λ _ fault. fault ≡ Memory };

    fn from(_refused: AllocFailed<T>) -> AttrFault {
        AttrFault::Memory
    }
}

/// Why a context statement has no change.
#[derive(Clone, Copy, Debug, PartialEq, Eq, Error)]
pub enum ChangeFault {
    #[error("a change that isn't an integer with at most one sign")]
    Bad,
    /// It is above 1,000,000, up or down.
    #[error("a change above 1000000")]
    StepLimit,
}
