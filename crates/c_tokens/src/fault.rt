// What leaves in place of tokens. The line that tells of it is written elsewhere.
ghost use Rattle.std.specs.Prelude.{◌≡◌};
ghost use Rattle.c_tokens.specs.declared.fault.LexFault.TheVariants.{Memory};

use sparse_model::Place;
use std::alloc::{AllocError, AllocFailed};
use thiserror::Error;

/// Why a text has no tokens: what opens at the place is never closed. Or memory was wanting.
#[derive(Clone, Copy, Debug, PartialEq, Eq, Error)]
pub enum LexFault {
    #[error("unterminated comment")]
    OpenComment(Place),
    #[error("unterminated literal")]
    OpenLiteral(Place),
    #[error("out of memory")]
    Memory,
}

impl From<AllocError> for LexFault {
    ghost from_gives = { λ _ fault. fault ≡ Memory };

    fn from(_error: AllocError) -> LexFault {
        LexFault::Memory
    }
}

impl<T: Drop> From<AllocFailed<T>> for LexFault {
    ghost from_gives = { λ _ fault. fault ≡ Memory };

    fn from(_refused: AllocFailed<T>) -> LexFault {
        LexFault::Memory
    }
}
