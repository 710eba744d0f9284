// The contexts of a declarator: those among the specifiers, before and behind it, and in parentheses around a part of it.
ghost use Rattle.std.specs.Prelude.{◌≡◌, IfOk, None, option_map};
ghost use Rattle.meaning_typing.specs.ContextSums as meaning;
ghost use Rattle.meaning_typing.specs.Declarators.{is_declarator};
ghost use Rattle.meaning_typing.specs.Surroundings.{Surrounding};
ghost use Rattle.meaning_typing.specs.Tags.{attributes_of_specifiers, tag_attributes};
ghost use Rattle.meaning_typing.specs.Units.{children_at, kind_at as kind_of};
ghost use Rattle.decl_judge.specs.Units.{handles_of, nodes_of};
ghost use Rattle.linked_names.specs.Contexts.{sums_of};
ghost use Rattle.declared_contexts.specs.Sums.{attributes_of_parts, attributes_standing, sums_over};

use crate::attributes::{over_leading, over_list, over_lists_behind, over_lists_below};
use c_tree::{Handle, Unit};
use decl_judge::{child_at, kind_at, node_at};
use linked_names::ContextSums;
use sparse_model::NodeKind;
use std::alloc::AllocError;
use tag_list::TagList;

// With the attributes of a specifier: those of a list, and those between a keyword and its tag.
fn over_specifier(
    unit: &Unit,
    sums: Option<ContextSums>,
    handle: Handle,
) -> Result<Option<ContextSums>, AllocError>
    requires { unit.now.first ≡ 0 }
    ensures { IfOk result (λ more. option_map sums_of more ≡ sums_over (nodes_of unit.now) (option_map sums_of sums) (tag_attributes (nodes_of unit.now) (kind_of (nodes_of unit.now) handle) (children_at (nodes_of unit.now) handle))) }
{
    match kind_at(unit, handle) {
        NodeKind::AttributeList => over_list(unit, sums, handle),
        NodeKind::StructSpecifier => over_lists_below(unit, sums, handle),
        NodeKind::UnionSpecifier => over_lists_below(unit, sums, handle),
        NodeKind::EnumSpecifier => over_lists_below(unit, sums, handle),
        _ => Ok(sums),
    }
}

fn over_specifiers(
    unit: &Unit,
    sums: Option<ContextSums>,
    specifiers: &TagList,
) -> Result<Option<ContextSums>, AllocError>
    requires { unit.now.first ≡ 0 }
    ensures { IfOk result (λ more. option_map sums_of more ≡ sums_over (nodes_of unit.now) (option_map sums_of sums) (attributes_of_specifiers (nodes_of unit.now) (handles_of specifiers.now))) }
{
    let mut after = sums;
    for (specifier, _) in specifiers.iter() {
        after = over_specifier(unit, after, specifier)?;
    }
    Ok(after)
}

// With those of the specifiers below a node.
fn over_specifiers_below(
    unit: &Unit,
    sums: Option<ContextSums>,
    handle: Handle,
) -> Result<Option<ContextSums>, AllocError>
    requires { unit.now.first ≡ 0 }
    ensures { IfOk result (λ more. option_map sums_of more ≡ sums_over (nodes_of unit.now) (option_map sums_of sums) (attributes_of_specifiers (nodes_of unit.now) (children_at (nodes_of unit.now) handle))) }
{
    match node_at(unit, handle) {
        Some(node) => over_specifiers(unit, sums, &node.children),
        None => Ok(sums),
    }
}

// With those of a part of a declarator: what stands behind a `*` is none of the declaration's.
fn over_part(
    unit: &Unit,
    sums: Option<ContextSums>,
    handle: Handle,
) -> Result<Option<ContextSums>, AllocError>
    requires { unit.now.first ≡ 0 }
    ensures { IfOk result (λ more. option_map sums_of more ≡ sums_over (nodes_of unit.now) (option_map sums_of sums) (meaning.part_attributes (nodes_of unit.now) (kind_of (nodes_of unit.now) handle) handle)) }
{
    match kind_at(unit, handle) {
        NodeKind::ParenthesizedAttributes => over_lists_below(unit, sums, handle),
        _ => Ok(sums),
    }
}

fn over_parts(
    unit: &Unit,
    sums: Option<ContextSums>,
    parts: &TagList,
) -> Result<Option<ContextSums>, AllocError>
    requires { unit.now.first ≡ 0 }
    ensures { IfOk result (λ more. option_map sums_of more ≡ sums_over (nodes_of unit.now) (option_map sums_of sums) (attributes_of_parts (nodes_of unit.now) (handles_of parts.now))) }
{
    let mut after = sums;
    for (part, _) in parts.iter() {
        after = over_part(unit, after, part)?;
    }
    Ok(after)
}

fn over_parts_below(
    unit: &Unit,
    sums: Option<ContextSums>,
    handle: Handle,
) -> Result<Option<ContextSums>, AllocError>
    requires { unit.now.first ≡ 0 }
    ensures { IfOk result (λ more. option_map sums_of more ≡ sums_over (nodes_of unit.now) (option_map sums_of sums) (attributes_of_parts (nodes_of unit.now) (children_at (nodes_of unit.now) handle))) }
{
    match node_at(unit, handle) {
        Some(node) => over_parts(unit, sums, &node.children),
        None => Ok(sums),
    }
}

// One after the other, in the order of the definition.
fn over_all(
    unit: &Unit,
    declarator: Handle,
    parent: Handle,
    place: u32,
) -> Result<Option<ContextSums>, AllocError>
    requires { unit.now.first ≡ 0 }
    ensures { IfOk result (λ sums. option_map sums_of sums ≡ sums_over (nodes_of unit.now) None (attributes_standing (nodes_of unit.now) declarator parent place)) }
{
    let specified = over_specifiers_below(unit, None, child_at(unit, parent, 0))?;
    let before = child_at(unit, parent, place.saturating_sub(1));
    let leading = over_leading(unit, specified, before)?;
    let within = over_parts_below(unit, leading, declarator)?;
    over_lists_behind(unit, within, parent, place)
}

fn is_declarator(kind: NodeKind) -> bool
    ensures { result ≡ is_declarator kind }
{
    match kind {
        NodeKind::Declarator => true,
        _ => false,
    }
}

/// The sums of the contexts of the declarator at this place below a node, if it carries some: those among the specifiers, before
/// and behind it, and in parentheses around a part of it. Another node carries none. A sum that doesn't fit in 64 bits is want of memory. It takes a step
/// for each attribute, and for each part and specifier.
pub fn contexts_of(
    unit: &Unit,
    declarator: Handle,
    parent: Handle,
    place: u32,
) -> Result<Option<ContextSums>, AllocError>
    requires { unit.now.first ≡ 0 }
    ensures { IfOk result (λ sums. (surrounding : Surrounding) → surrounding.parent ≡ parent → surrounding.place ≡ place → option_map sums_of sums ≡ meaning.contexts_of (nodes_of unit.now) declarator surrounding) }
{
    if !is_declarator(kind_at(unit, declarator)) {
        return Ok(None);
    }
    over_all(unit, declarator, parent, place)
}
