// Why an expression is refused.
ghost use Rattle.std.specs.Prelude.{◌≡◌};
ghost use Rattle.node_judge.specs.declared.fault.ExprFault.TheVariants.{Memory};

use expression_rows::Broken;
use std::alloc::AllocError;
use thiserror::Error;

/// Why an expression is refused.
#[derive(Clone, Copy, Debug, PartialEq, Eq, Error)]
pub enum ExprFault {
    /// It breaks this constraint, and none that stands before.
    #[error("a constraint is broken")]
    Constraint(Broken),
    #[error("out of memory")]
    Memory,
}

impl From<AllocError> for ExprFault {
    ghost from_gives = { λ _ fault. fault ≡ Memory };

    fn from(_error: AllocError) -> ExprFault {
        ExprFault::Memory
    }
}
