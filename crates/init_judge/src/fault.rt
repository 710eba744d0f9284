// Why an initializer is refused.
ghost use Rattle.std.specs.Prelude.{◌≡◌};
ghost use Rattle.init_judge.specs.declared.fault.InitFault.TheVariants.{Memory};

use expression_rows::Broken;
use std::alloc::AllocError;
use thiserror::Error;

/// Why an initializer is refused.
#[derive(Clone, Copy, Debug, PartialEq, Eq, Error)]
pub enum InitFault {
    /// It breaks this constraint, and none that stands before: an initializer without a place (C11 6.7.9 p2), a designator of no part
    /// (p6, p7), what isn't constant (p4), or what doesn't become a value of the part's type (p11, p13).
    #[error("a constraint is broken")]
    Constraint(Broken),
    #[error("out of memory")]
    Memory,
}

impl From<AllocError> for InitFault {
    ghost from_gives = { λ _ fault. fault ≡ Memory };

    fn from(_error: AllocError) -> InitFault {
        InitFault::Memory
    }
}
