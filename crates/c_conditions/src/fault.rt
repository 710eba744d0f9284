// The number that a condition comes to, and why it has none. The line that tells of it is written elsewhere.
ghost use Rattle.std.specs.Prelude.{◌≡◌};
ghost use Rattle.c_conditions.specs.declared.fault.IfFault.TheVariants.{Memory};

use std::alloc::{AllocError, AllocFailed};
use thiserror::Error;

/// A number of 64 bits, of the type intmax_t or uintmax_t (C11 6.10.1 p4).
#[derive(Clone, Copy, Debug, PartialEq, Eq)]
pub struct IfNumber {
    /// A signed number below 0 is 2^64 more here.
    pub bits: u64,
    pub unsigned: bool,
}

/// Why tokens behind `#if` have no value.
#[derive(Clone, Copy, Debug, PartialEq, Eq, Error)]
pub enum IfFault {
    /// At the token with this index they are no expression any more; at their number, they are one that
    /// isn't finished.
    #[error("bad #if expression")]
    BadExpression(u32),
    /// The operator with this index divides by 0.
    #[error("division by zero in #if")]
    ZeroDivisor(u32),
    #[error("out of memory")]
    Memory,
}

impl From<AllocError> for IfFault {
    ghost from_gives = { λ _ fault. fault ≡ Memory };

    fn from(_error: AllocError) -> IfFault {
        IfFault::Memory
    }
}

impl<T: Drop> From<AllocFailed<T>> for IfFault {
    ghost from_gives = { λ _ fault. fault ≡ Memory };

    fn from(_refused: AllocFailed<T>) -> IfFault {
        IfFault::Memory
    }
}
