// Kinds of tags (C11 6.7.2.3 p1): the kind of a node in, that of its tag out.
ghost use Rattle.std.specs.Prelude.{◌≡◌, option_map};
ghost use Rattle.meaning_typing.specs.Tags as meaning;
ghost use Rattle.tag_rows.specs.Seen.{kind_seen};

use sparse_model::NodeKind;

/// What a tag is that of.
#[derive(Clone, Copy, Debug, PartialEq, Eq)]
pub enum TagKind {
    Structure,
    Union,
    Enumeration,
}

/// The kind of the tag of a specifier: no other node has one.
pub fn tag_kind(kind: NodeKind) -> Option<TagKind>
    ensures { option_map kind_seen result ≡ meaning.tag_kind kind }
{
    match kind {
        NodeKind::StructSpecifier => Some(TagKind::Structure),
        NodeKind::UnionSpecifier => Some(TagKind::Union),
        NodeKind::EnumSpecifier => Some(TagKind::Enumeration),
        _ => None,
    }
}

/// Whether both are there and one kind.
pub fn are_one_kind(kind: Option<TagKind>, other: Option<TagKind>) -> bool
    ensures { result ≡ meaning.are_one_kind (option_map kind_seen kind) (option_map kind_seen other) }
{
    match (kind, other) {
        (Some(TagKind::Structure), Some(TagKind::Structure)) => true,
        (Some(TagKind::Union), Some(TagKind::Union)) => true,
        (Some(TagKind::Enumeration), Some(TagKind::Enumeration)) => true,
        _ => false,
    }
}
