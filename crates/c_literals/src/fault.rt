// What leaves in place of a value. Where the literal stands isn't known here.
ghost use Rattle.std.specs.Prelude.{◌≡◌};
ghost use Rattle.c_literals.specs.declared.fault.LiteralFault.TheVariants.{Memory};

use std::alloc::{AllocError, AllocFailed};
use thiserror::Error;

/// Why a literal has no value.
#[derive(Clone, Copy, Debug, PartialEq, Eq, Error)]
pub enum LiteralFault {
    #[error("a digit that the base doesn't have, or no digit")]
    BadDigit,
    #[error("a suffix that isn't one of an integer constant")]
    BadSuffix,
    #[error("a value that no type of the constant holds")]
    TooBig,
    #[error("a floating constant")]
    Floating,
    #[error("an unknown escape, a value above 255, or more than one character")]
    BadEscape,
    #[error("a character constant without a character")]
    Empty,
    #[error("a wide or UTF literal")]
    Wide,
    #[error("a universal character name")]
    Universal,
    #[error("out of memory")]
    Memory,
}

impl From<AllocError> for LiteralFault {
    ghost from_gives = { λ _ fault. fault ≡ Memory };

    fn from(_error: AllocError) -> LiteralFault {
        LiteralFault::Memory
    }
}

impl<T: Drop> From<AllocFailed<T>> for LiteralFault {
    ghost from_gives = { λ _ fault. fault ≡ Memory };

    fn from(_refused: AllocFailed<T>) -> LiteralFault {
        LiteralFault::Memory
    }
}
