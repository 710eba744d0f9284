// Why a unit has no tree, and at which token: what leaves in its place. How that is written isn't known here.
ghost use Rattle.std.specs.Prelude.{◌≡◌};
ghost use Rattle.c_parse.specs.Telling.{fault_seen};
ghost use Rattle.c_parse.specs.declared.fault.ParseFault.TheVariants.{Memory};

use parse_state::ActionFault;
use std::alloc::AllocError;
use thiserror::Error;
use vocabulary::{ErrorKind, LimitKind};

/// Why a unit has no tree.
#[derive(Clone, Copy, Debug, PartialEq, Eq, Error)]
pub enum ParseFault {
    /// It is refused for this, which stands at the token with this index.
    #[error("refused")]
    Refused(ErrorKind, u32),
    /// It passes this limit, at the terminal with this number, or at the token with this index where an action tells it.
    #[error("a limit is passed")]
    Limit(LimitKind, u32),
    #[error("out of memory")]
    Memory,
}

impl From<AllocError> for ParseFault {
    ghost from_gives = { λ _ fault. fault ≡ Memory };

    fn from(_error: AllocError) -> ParseFault {
        ParseFault::Memory
    }
}

/// The fault of a unit where an action doesn't go on.
pub(crate) fn fault_of_action(fault: ActionFault) -> ParseFault
    ensures { result ≡ fault_seen fault }
{
    match fault {
        ActionFault::Refused(error, token) => ParseFault::Refused(error, token),
        ActionFault::Limit(limit, token) => ParseFault::Limit(limit, token),
        ActionFault::Memory => ParseFault::Memory,
    }
}
