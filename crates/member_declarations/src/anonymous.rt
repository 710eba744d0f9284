// Anonymous members (C11 6.7.2.1 p13): a declaration in, whether a structure or union without a tag is among its specifiers out.
ghost use Rattle.std.specs.Prelude.{◌≡◌};
ghost use Rattle.meaning_typing.specs.MemberDeclarations as meaning;
ghost use Rattle.meaning_typing.specs.Units.{child_at as child_of, children_at, kind_at as kind_of};
ghost use Rattle.decl_judge.specs.Units.{handles_of, nodes_of};

use crate::bit_fields::has_name;
use c_tree::{Handle, Unit};
use decl_judge::{child_at, kind_at, node_at};
use sparse_model::NodeKind;
use tag_list::TagList;

fn is_tagless(unit: &Unit, handle: Handle) -> bool
    requires { unit.now.first ≡ 0 }
    ensures { result ≡ meaning.is_tagless (nodes_of unit.now) handle (kind_of (nodes_of unit.now) handle) }
{
    match kind_at(unit, handle) {
        NodeKind::StructSpecifier => !has_name(unit, handle),
        NodeKind::UnionSpecifier => !has_name(unit, handle),
        _ => false,
    }
}

fn is_tagless_among(unit: &Unit, specifiers: &TagList) -> bool
    requires { unit.now.first ≡ 0 }
    ensures { result ≡ meaning.is_tagless_among (nodes_of unit.now) (handles_of specifiers.now) }
{
    for (specifier, _) in specifiers.iter() {
        if is_tagless(unit, specifier) {
            return true;
        }
    }
    false
}

/// Whether a structure or union without a tag is among the specifiers of a declaration. It takes a step for each of these.
pub fn has_tagless(unit: &Unit, declaration: Handle) -> bool
    requires { unit.now.first ≡ 0 }
    ensures { result ≡ meaning.is_tagless_among (nodes_of unit.now) (children_at (nodes_of unit.now) (child_of (nodes_of unit.now) declaration 0)) }
{
    match node_at(unit, child_at(unit, declaration, 0)) {
        Some(node) => is_tagless_among(unit, &node.children),
        None => false,
    }
}
