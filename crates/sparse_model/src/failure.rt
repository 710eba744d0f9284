// What fails a rule, and the paths of files by their numbers. How either is found or told isn't known here.
use crate::ids::{NameId, TypeId};
use crate::seq::Seq;
use vocabulary::RuleCode;

/// A failure of a rule at a place. What a rule doesn't speak of is none, 0 or the empty name.
#[derive(Clone, Copy, Debug, PartialEq, Eq)]
pub struct Failure {
    /// The index of the token at which it stands.
    pub token: u32,
    pub rule: RuleCode,
    /// 0 for a node's own rule, k for the k-th argument of a call, and 256 for an initializer.
    pub part: u16,
    pub first: Option<TypeId>,
    pub second: Option<TypeId>,
    /// The name that its text tells.
    pub name: NameId,
    /// What was counted, and what was wanted.
    pub number: i128,
    pub wanted: i128,
}

/// Failures in the order in which they were found.
pub type FailureList = Seq<Failure>;

/// The paths of files, each at the number of its file.
pub type FileNames = Seq<NameId>;
