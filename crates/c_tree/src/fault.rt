// What a unit answers with a node that it gives back.
use thiserror::Error;

/// Why a node isn't added.
#[derive(Clone, Copy, Debug, PartialEq, Eq, Error)]
pub enum AddFault {
    #[error("too many nodes")]
    Limit,
    #[error("out of memory")]
    Memory,
}
