// What can be made of two sets.
ghost use Rattle.std.specs.Prelude.{◌≡◌, ◌≢◌, ◌<◌, List, IfSome, IfNone};
ghost use Rattle.number_sets.specs.declared.branch.Branch.{Branch};
ghost use Rattle.number_sets.specs.Branches.{IsMade, count};

use crate::branch::EMPTY;

/// What is made of two sets.
#[derive(Clone, Copy, Debug, PartialEq, Eq, Hash)]
pub enum Operation {
    Union,
    Intersection,
}

/// Two sets, and what is made of them.
#[derive(Clone, Copy, Debug, PartialEq, Eq, Hash)]
pub struct Pair {
    pub operation: Operation,
    pub left: u32,
    pub right: u32,
}

/// What is made of two sets where no branch is looked at: one of them is empty, or they are one set.
pub fn settled(pair: Pair) -> Option<u32>
    ensures made { IfSome result (λ set. (bs : List Branch) → pair.left < count bs → pair.right < count bs → IsMade bs pair set) }
    ensures differ { IfNone result (pair.left ≢ pair.right) }
    ensures left { IfNone result (pair.left ≢ 0) }
    ensures right { IfNone result (pair.right ≢ 0) }
{
    if pair.left == pair.right {
        return Some(pair.left);
    }
    match pair.operation {
        Operation::Union if pair.left == EMPTY => Some(pair.right),
        Operation::Union if pair.right == EMPTY => Some(pair.left),
        Operation::Intersection if pair.left == EMPTY => Some(EMPTY),
        Operation::Intersection if pair.right == EMPTY => Some(EMPTY),
        _ => None,
    }
}
