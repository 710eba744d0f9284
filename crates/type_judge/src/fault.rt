// Why a unit is refused.
ghost use Rattle.std.specs.Prelude.{◌≡◌};
ghost use Rattle.type_judge.specs.declared.fault.JudgeFault.TheVariants.{Memory};

use expression_rows::Broken;
use sparse_model::LimitKind;
use std::alloc::AllocError;
use thiserror::Error;

/// Why a unit is refused.
#[derive(Clone, Copy, Debug, PartialEq, Eq, Error)]
pub enum JudgeFault {
    /// It breaks this constraint, and none that stands before.
    #[error("a constraint is broken")]
    Constraint(Broken),
    /// An object is larger than it may be, and no constraint is broken at a token up to there.
    #[error("a limit is passed")]
    Limit(LimitKind),
    #[error("out of memory")]
    Memory,
}

impl From<AllocError> for JudgeFault {
    ghost from_gives = { λ _ fault. fault ≡ Memory };

    fn from(_error: AllocError) -> JudgeFault {
        JudgeFault::Memory
    }
}
