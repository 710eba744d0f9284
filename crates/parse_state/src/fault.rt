// Why an action doesn't go on. What leaves in the place of a value. Which action it is isn't known here.
ghost use Rattle.std.specs.Prelude.{◌≡◌};
ghost use Rattle.c_literals.specs.Seen.{fault_seen};
ghost use Rattle.parse_state.specs.declared.fault.ActionFault.TheVariants.{Memory};
ghost use Rattle.parse_state.specs.Strings.{literal_told};

use c_literals::LiteralFault;
use std::alloc::AllocError;
use thiserror::Error;
use vocabulary::{ErrorKind, LimitKind};

/// What an action comes to where it doesn't go on.
#[derive(Clone, Copy, Debug, PartialEq, Eq, Error)]
pub enum ActionFault {
    /// It is refused for this, which stands at the token with this index.
    #[error("refused")]
    Refused(ErrorKind, u32),
    /// It passes this limit, at the token with this index.
    #[error("a limit is passed")]
    Limit(LimitKind, u32),
    #[error("out of memory")]
    Memory,
}

/// What is told at this token of a literal without a value.
pub fn fault_of_literal(fault: LiteralFault, token: u32) -> ActionFault
    ensures { result ≡ literal_told (fault_seen fault) token }
{
    let kind = match fault {
        LiteralFault::BadDigit | LiteralFault::BadSuffix => ErrorKind::BadNumber,
        LiteralFault::TooBig => ErrorKind::NumberTooLarge,
        LiteralFault::Floating => ErrorKind::FloatingType,
        LiteralFault::BadEscape => ErrorKind::BadEscape,
        LiteralFault::Empty => ErrorKind::EmptyCharacterConstant,
        LiteralFault::Wide => ErrorKind::WideOrUtfLiteral,
        LiteralFault::Universal => ErrorKind::UniversalCharacterName,
        LiteralFault::Memory => return ActionFault::Memory,
    };
    ActionFault::Refused(kind, token)
}

impl From<AllocError> for ActionFault {
    ghost from_gives = { λ _ fault. fault ≡ Memory };

    fn from(_error: AllocError) -> ActionFault {
        ActionFault::Memory
    }
}
