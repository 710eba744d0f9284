// What is told of aggregates and identities, as callers give it and see it.
use sparse_model::{NameId, Restrict, Seq, TypeId};

/// A member of an aggregate.
#[derive(Clone, Copy)]
pub struct Member {
    pub name: Option<NameId>,
    pub of: TypeId,
    /// How many bits a bit-field has.
    pub width: Option<u32>,
    /// The alignment in bytes that is written, or 1.
    pub align: u32,
}

/// Members in order.
pub type MemberList = Seq<Member>;

/// What stands between the braces of an aggregate, and what its attributes say.
#[derive(Drop)]
pub struct AggregateBody {
    pub members: MemberList,
    pub packed: bool,
    /// The alignment in bytes that is written, or 1.
    pub align: u32,
}

/// What may have a name: a tag, by the token that names its aggregate first, or the identity of a
/// restricted type.
#[derive(Clone, Copy, PartialEq, Eq, Hash)]
pub enum Named {
    Tag(u32),
    Identity(Restrict),
}
