// What is known of a part of a node, as operators on integers see it.
ghost use Rattle.std.specs.Prelude.{◌≡◌};
ghost use Rattle.meaning_constants.specs.Operands.{complement_fouls, is_restricted, is_unsigned_and_narrow};
ghost use Rattle.meaning_constants.specs.Constants.{kind_of};

use c_types::{bits, has_sign};
use sparse_model::IntKind;

/// What the type of a part is to an operator on integers.
#[derive(Clone, Copy, Debug, PartialEq, Eq)]
pub enum PartType {
    Plain(IntKind),
    Restricted(IntKind),
    /// Any type but one of integers.
    Other,
}

/// What is known of a part that has a type.
#[derive(Clone, Copy, Debug, PartialEq, Eq)]
pub struct Part {
    /// Its type as a value, or the type that it names.
    pub of: PartType,
    pub fouled: bool,
    /// The number of its constant.
    pub number: Option<i128>,
}

impl PartType {
    ghost use Rattle.const_fold.specs.Seen.{seen_type};

    /// The kind of an integer.
    pub fn kind(self) -> Option<IntKind>
        ensures { result ≡ kind_of (seen_type self) }
    {
        match self {
            PartType::Plain(kind) => Some(kind),
            PartType::Restricted(kind) => Some(kind),
            PartType::Other => None,
        }
    }

    /// Whether it is a restricted integer.
    pub fn is_restricted(self) -> bool
        ensures { result ≡ is_restricted (seen_type self) }
    {
        match self {
            PartType::Plain(_) => false,
            PartType::Restricted(_) => true,
            PartType::Other => false,
        }
    }

    /// Whether `~` sets bits that the type doesn't have.
    pub fn complement_fouls(self) -> bool
        ensures { result ≡ complement_fouls (seen_type self) }
    {
        match self {
            PartType::Plain(_) => false,
            PartType::Restricted(kind) => is_unsigned_and_narrow(kind),
            PartType::Other => false,
        }
    }
}

// An unsigned kind that is promoted to a wider one.
fn is_unsigned_and_narrow(kind: IntKind) -> bool
    ensures { result ≡ is_unsigned_and_narrow kind }
{
    !has_sign(kind) && bits(kind) < bits(IntKind::Int)
}
