// Sums over the attributes of lists.
ghost use Rattle.std.specs.Prelude.{◌≡◌, ◌+◌, IfOk, option_map};
ghost use Rattle.meaning_typing.specs.Declarators.{leading_lists, lists_behind};
ghost use Rattle.meaning_typing.specs.Specifiers.{attributes_among, attributes_of};
ghost use Rattle.meaning_typing.specs.Units.{children_at, kind_at as kind_of};
ghost use Rattle.decl_judge.specs.Seen.{lists_from};
ghost use Rattle.decl_judge.specs.Units.{handles_of, nodes_of};
ghost use Rattle.linked_names.specs.Contexts.{sums_of};
ghost use Rattle.declared_contexts.specs.Sums.{sums_over};

use crate::sums::with_attribute;
use c_tree::{Handle, Unit};
use decl_judge::{attributes_at, kind_at, node_at};
use linked_names::ContextSums;
use sparse_model::NodeKind;
use std::alloc::AllocError;
use tag_list::TagList;

// With the attributes of a list.
fn over_attributes(
    unit: &Unit,
    sums: Option<ContextSums>,
    attributes: &TagList,
) -> Result<Option<ContextSums>, AllocError>
    requires { unit.now.first ≡ 0 }
    ensures { IfOk result (λ more. option_map sums_of more ≡ sums_over (nodes_of unit.now) (option_map sums_of sums) (handles_of attributes.now)) }
{
    let mut after = sums;
    for (attribute, _) in attributes.iter() {
        after = with_attribute(unit, after, attribute)?;
    }
    Ok(after)
}

/// With the attributes of a node, if it is a list of them.
pub fn over_list(
    unit: &Unit,
    sums: Option<ContextSums>,
    handle: Handle,
) -> Result<Option<ContextSums>, AllocError>
    requires { unit.now.first ≡ 0 }
    ensures { IfOk result (λ more. option_map sums_of more ≡ sums_over (nodes_of unit.now) (option_map sums_of sums) (attributes_of (kind_of (nodes_of unit.now) handle) (children_at (nodes_of unit.now) handle))) }
{
    match attributes_at(unit, handle) {
        Some(attributes) => over_attributes(unit, sums, attributes),
        None => Ok(sums),
    }
}

// With those of all lists among children.
fn over_lists(
    unit: &Unit,
    sums: Option<ContextSums>,
    children: &TagList,
) -> Result<Option<ContextSums>, AllocError>
    requires { unit.now.first ≡ 0 }
    ensures { IfOk result (λ more. option_map sums_of more ≡ sums_over (nodes_of unit.now) (option_map sums_of sums) (attributes_among (nodes_of unit.now) (handles_of children.now))) }
{
    let mut after = sums;
    for (child, _) in children.iter() {
        after = over_list(unit, after, child)?;
    }
    Ok(after)
}

/// With those of all lists below a node.
pub fn over_lists_below(
    unit: &Unit,
    sums: Option<ContextSums>,
    handle: Handle,
) -> Result<Option<ContextSums>, AllocError>
    requires { unit.now.first ≡ 0 }
    ensures { IfOk result (λ more. option_map sums_of more ≡ sums_over (nodes_of unit.now) (option_map sums_of sums) (attributes_among (nodes_of unit.now) (children_at (nodes_of unit.now) handle))) }
{
    match node_at(unit, handle) {
        Some(node) => over_lists(unit, sums, &node.children),
        None => Ok(sums),
    }
}

/// With those of a node, if it stands before a declarator that isn't the first one.
pub fn over_leading(
    unit: &Unit,
    sums: Option<ContextSums>,
    handle: Handle,
) -> Result<Option<ContextSums>, AllocError>
    requires { unit.now.first ≡ 0 }
    ensures { IfOk result (λ more. option_map sums_of more ≡ sums_over (nodes_of unit.now) (option_map sums_of sums) (attributes_among (nodes_of unit.now) (leading_lists (kind_of (nodes_of unit.now) handle) (children_at (nodes_of unit.now) handle)))) }
{
    match kind_at(unit, handle) {
        NodeKind::LeadingAttributes => over_lists_below(unit, sums, handle),
        _ => Ok(sums),
    }
}

// With those of the lists that stand one behind the other, directly behind this place.
fn over_lists_after(
    unit: &Unit,
    sums: Option<ContextSums>,
    children: &TagList,
    place: u32,
) -> Result<Option<ContextSums>, AllocError>
    requires { unit.now.first ≡ 0 }
    ensures { IfOk result (λ more. option_map sums_of more ≡ sums_over (nodes_of unit.now) (option_map sums_of sums) (attributes_among (nodes_of unit.now) (lists_from (nodes_of unit.now) children.now (place + 1)))) }
{
    let mut after = sums;
    for next in place.saturating_add(1)..children.len() {
        match attributes_at(unit, children.get(next).0) {
            Some(attributes) => after = over_attributes(unit, after, attributes)?,
            None => return Ok(after),
        }
    }
    Ok(after)
}

/// With those directly behind the child at this place.
pub fn over_lists_behind(
    unit: &Unit,
    sums: Option<ContextSums>,
    parent: Handle,
    place: u32,
) -> Result<Option<ContextSums>, AllocError>
    requires { unit.now.first ≡ 0 }
    ensures { IfOk result (λ more. option_map sums_of more ≡ sums_over (nodes_of unit.now) (option_map sums_of sums) (attributes_among (nodes_of unit.now) (lists_behind (nodes_of unit.now) parent place))) }
{
    match node_at(unit, parent) {
        Some(node) => over_lists_after(unit, sums, &node.children, place),
        None => Ok(sums),
    }
}
