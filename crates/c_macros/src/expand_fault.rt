// Why tokens have no expansion. The line that tells of it is written elsewhere.
ghost use Rattle.std.specs.Prelude.{◌≡◌};
ghost use Rattle.c_macros.specs.declared.expand_fault.ExpandFault.TheVariants.{Memory};

use sparse_model::Place;
use std::alloc::{AllocError, AllocFailed};
use thiserror::Error;
use vocabulary::LimitKind;

/// Why tokens have no expansion: where the outermost macro's name stands, and how many tokens are put
/// before.
#[derive(Clone, Copy, Debug, PartialEq, Eq, Error)]
pub enum ExpandFault {
    /// Their number isn't that of the parameters (C11 6.10.3 p4).
    #[error("wrong number of arguments of a macro")]
    Arguments { place: Place, before: usize },
    /// No `)` ends the call (6.10.3 p4).
    #[error("unterminated call of a macro")]
    OpenCall { place: Place, before: usize },
    /// `##` makes no token (6.10.3.3 p3).
    #[error("no valid token by ##")]
    BadPaste { place: Place, before: usize },
    #[error("a limit is passed")]
    Limit { limit: LimitKind, before: usize },
    #[error("out of memory")]
    Memory,
}

impl From<AllocError> for ExpandFault {
    ghost from_gives = { λ _ fault. fault ≡ Memory };

    fn from(_error: AllocError) -> ExpandFault {
        ExpandFault::Memory
    }
}

impl<T: Drop> From<AllocFailed<T>> for ExpandFault {
    ghost from_gives = { λ _ fault. fault ≡ Memory };

    fn from(_refused: AllocFailed<T>) -> ExpandFault {
        ExpandFault::Memory
    }
}
