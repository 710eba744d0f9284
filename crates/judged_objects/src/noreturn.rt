// Whether a declaration says that a function doesn't return (C11 6.7.4 p8, and our choice of attributes): a declarator in, by where it
// stands; yes or no out. What other declarations say isn't known here.
ghost use Rattle.std.specs.Prelude.{◌≡◌};
ghost use Rattle.meaning_objects.specs.Carried as meaning;
ghost use Rattle.meaning_typing.specs.ContextSums.{part_attributes};
ghost use Rattle.meaning_typing.specs.Surroundings.{Surrounding};
ghost use Rattle.meaning_typing.specs.Tags.{attributes_of_specifiers, tag_attributes};
ghost use Rattle.meaning_typing.specs.Units.{children_at, kind_at as kind_of};
ghost use Rattle.declared_contexts.specs.Sums.{attributes_of_parts, attributes_standing};
ghost use Rattle.decl_judge.specs.Units.{handles_of, nodes_of};
ghost use Rattle.judged_objects.specs.Noreturn.{has_noreturn, has_specifier};

use crate::attributes::{in_leading, in_list, in_lists_behind, in_lists_below};
use c_tree::{Handle, Unit};
use decl_judge::{child_at, kind_at, node_at};
use sparse_model::NodeKind;
use tag_list::TagList;

// Whether an attribute of a specifier says it: of a list, or between a keyword and its tag.
fn in_specifier(unit: &Unit, handle: Handle) -> bool
    requires { unit.now.first ≡ 0 }
    ensures { result ≡ has_noreturn (nodes_of unit.now) (tag_attributes (nodes_of unit.now) (kind_of (nodes_of unit.now) handle) (children_at (nodes_of unit.now) handle)) }
{
    match kind_at(unit, handle) {
        NodeKind::AttributeList => in_list(unit, handle),
        NodeKind::StructSpecifier => in_lists_below(unit, handle),
        NodeKind::UnionSpecifier => in_lists_below(unit, handle),
        NodeKind::EnumSpecifier => in_lists_below(unit, handle),
        _ => false,
    }
}

fn among_specifiers(unit: &Unit, specifiers: &TagList) -> bool
    requires { unit.now.first ≡ 0 }
    ensures { result ≡ has_noreturn (nodes_of unit.now) (attributes_of_specifiers (nodes_of unit.now) (handles_of specifiers.now)) }
{
    for (specifier, _) in specifiers.iter() {
        if in_specifier(unit, specifier) {
            return true;
        }
    }
    false
}

// Whether an attribute of the specifiers below a node does.
fn in_specifiers_below(unit: &Unit, handle: Handle) -> bool
    requires { unit.now.first ≡ 0 }
    ensures { result ≡ has_noreturn (nodes_of unit.now) (attributes_of_specifiers (nodes_of unit.now) (children_at (nodes_of unit.now) handle)) }
{
    match node_at(unit, handle) {
        Some(node) => among_specifiers(unit, &node.children),
        None => false,
    }
}

// Whether an attribute of a part of a declarator does: what stands behind a `*` is none of the declaration's.
fn in_part(unit: &Unit, handle: Handle) -> bool
    requires { unit.now.first ≡ 0 }
    ensures { result ≡ has_noreturn (nodes_of unit.now) (part_attributes (nodes_of unit.now) (kind_of (nodes_of unit.now) handle) handle) }
{
    match kind_at(unit, handle) {
        NodeKind::ParenthesizedAttributes => in_lists_below(unit, handle),
        _ => false,
    }
}

fn among_parts(unit: &Unit, parts: &TagList) -> bool
    requires { unit.now.first ≡ 0 }
    ensures { result ≡ has_noreturn (nodes_of unit.now) (attributes_of_parts (nodes_of unit.now) (handles_of parts.now)) }
{
    for (part, _) in parts.iter() {
        if in_part(unit, part) {
            return true;
        }
    }
    false
}

fn in_parts_below(unit: &Unit, handle: Handle) -> bool
    requires { unit.now.first ≡ 0 }
    ensures { result ≡ has_noreturn (nodes_of unit.now) (attributes_of_parts (nodes_of unit.now) (children_at (nodes_of unit.now) handle)) }
{
    match node_at(unit, handle) {
        Some(node) => among_parts(unit, &node.children),
        None => false,
    }
}

// Whether an attribute of a declarator does that stands here.
fn in_attributes(unit: &Unit, declarator: Handle, parent: Handle, place: u32) -> bool
    requires { unit.now.first ≡ 0 }
    ensures { result ≡ has_noreturn (nodes_of unit.now) (attributes_standing (nodes_of unit.now) declarator parent place) }
{
    in_specifiers_below(unit, child_at(unit, parent, 0))
        || in_leading(unit, child_at(unit, parent, place.saturating_sub(1)))
        || in_parts_below(unit, declarator)
        || in_lists_behind(unit, parent, place)
}

fn is_specifier(kind: NodeKind) -> bool
    ensures { result ≡ meaning.is_noreturn_specifier kind }
{
    match kind {
        NodeKind::NoreturnSpecifier => true,
        _ => false,
    }
}

// Whether `_Noreturn` is one of these specifiers.
fn has_specifier(unit: &Unit, specifiers: &TagList) -> bool
    requires { unit.now.first ≡ 0 }
    ensures { result ≡ has_specifier (nodes_of unit.now) (handles_of specifiers.now) }
{
    for (specifier, _) in specifiers.iter() {
        if is_specifier(kind_at(unit, specifier)) {
            return true;
        }
    }
    false
}

// Whether it is one of those below a node.
fn has_specifier_below(unit: &Unit, handle: Handle) -> bool
    requires { unit.now.first ≡ 0 }
    ensures { result ≡ has_specifier (nodes_of unit.now) (children_at (nodes_of unit.now) handle) }
{
    match node_at(unit, handle) {
        Some(node) => has_specifier(unit, &node.children),
        None => false,
    }
}

/// Whether the declaration of the declarator at this place below a node says that it doesn't return: `_Noreturn` among the
/// specifiers, or the attribute where a context would be the declaration's too. It takes a step for each attribute, part and
/// specifier.
pub fn says_noreturn(unit: &Unit, declarator: Handle, parent: Handle, place: u32) -> bool
    requires { unit.now.first ≡ 0 }
    ensures { (surrounding : Surrounding) → surrounding.parent ≡ parent → surrounding.place ≡ place → result ≡ meaning.says_noreturn (nodes_of unit.now) declarator surrounding }
{
    let specified = has_specifier_below(unit, child_at(unit, parent, 0));
    let listed = in_attributes(unit, declarator, parent, place);
    specified | listed
}
