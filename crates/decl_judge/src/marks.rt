// What attributes add to a type: `noderef`, an address space, an identity of its own.
ghost use Rattle.std.specs.Prelude.{◌≡◌, ◌+◌, IfOk, is_some, option_map};
ghost use Rattle.meaning_types.specs.Types.{has_flag};
ghost use Rattle.meaning_typing.specs.Declarators.{leading_lists, lists_behind, own_marks};
ghost use Rattle.meaning_typing.specs.Specifiers as meaning;
ghost use Rattle.meaning_typing.specs.Units.{children_at, kind_at as kind_of, node_at as node_of_unit};
ghost use Rattle.c_tree.specs.Seen.{node_of};
ghost use Rattle.c_types.specs.Table.{space_of};
ghost use Rattle.decl_judge.specs.Seen.{handles_or_none, is_list, list_marks, lists_from, marks_over, marks_seen};
ghost use Rattle.decl_judge.specs.Units.{handles_of, named_node, nodes_of};

use crate::nodes::{child_at, node_at};
use c_tree::{Handle, Node, Unit};
use sparse_model::{NodeKind, Space};
use std::alloc::AllocError;
use tag_list::TagList;

/// What attributes add to a type.
#[derive(Clone, Copy, Debug, PartialEq, Eq)]
pub struct Marks {
    pub noderef: bool,
    pub space: Space,
    /// An integer type becomes one of its own.
    pub is_bitwise: bool,
}

// The space that an attribute tells, by its name or by its number. No attribute that was read has a number above those of
// spaces, so one that has is want of memory.
fn space_told(node: &Node) -> Result<Space, AllocError>
    ensures { IfOk result (λ space. space_of space ≡ meaning.space_named (named_node (node_of node.now)).name node.now.number) }
{
    if node.name.0 != 0 {
        return Ok(Space::Named(node.name));
    }
    match u32::try_from(node.number) {
        Ok(number) => Ok(Space::Number(number)),
        Err(_) => Err(AllocError),
    }
}

impl Marks {
    /// None.
    pub fn none() -> Marks
        ensures { marks_seen result ≡ meaning.no_marks }
    {
        Marks {
            noderef: false,
            space: Space::None,
            is_bitwise: false,
        }
    }

    /// Whether they add a flag to a type.
    pub fn has_flag(self) -> bool
        ensures { result ≡ has_flag (marks_seen self).flags }
    {
        match self.space {
            Space::None => self.noderef,
            Space::Number(_) => true,
            Space::Named(_) => true,
        }
    }

    // One attribute more: a later space replaces an earlier one.
    fn with_attribute(self, node: &Node) -> Result<Marks, AllocError>
        ensures { IfOk result (λ marks. marks_seen marks ≡ meaning.marked_by (named_node (node_of node.now)) node.now.kind (marks_seen self)) }
    {
        match node.kind {
            NodeKind::NoderefAttribute => Ok(Marks {
                noderef: true,
                ..self
            }),
            NodeKind::AddressSpaceAttribute => Ok(Marks {
                space: space_told(node)?,
                ..self
            }),
            NodeKind::BitwiseAttribute => Ok(Marks {
                is_bitwise: true,
                ..self
            }),
            _ => Ok(self),
        }
    }
}

fn with_attribute_at(unit: &Unit, marks: Marks, handle: Handle) -> Result<Marks, AllocError>
    requires { unit.now.first ≡ 0 }
    ensures { IfOk result (λ after. marks_seen after ≡ meaning.marked_by (node_of_unit (nodes_of unit.now) handle) (kind_of (nodes_of unit.now) handle) (marks_seen marks)) }
{
    match node_at(unit, handle) {
        Some(node) => marks.with_attribute(node),
        None => Ok(marks),
    }
}

// With the attributes of a list.
fn marks_behind(unit: &Unit, marks: Marks, attributes: &TagList) -> Result<Marks, AllocError>
    requires { unit.now.first ≡ 0 }
    ensures { IfOk result (λ after. marks_seen after ≡ meaning.marks_behind (nodes_of unit.now) (marks_seen marks) (handles_of attributes.now)) }
{
    let mut after = marks;
    for (attribute, _) in attributes.iter() {
        after = with_attribute_at(unit, after, attribute)?;
    }
    Ok(after)
}

/// The attributes of a node, if it is a list of them.
pub fn attributes_at(unit: &Unit, handle: Handle) -> Option<&TagList>
    requires { unit.now.first ≡ 0 }
    ensures attributes { handles_or_none (option_map (λ list. list.now) result) ≡ meaning.attributes_of (kind_of (nodes_of unit.now) handle) (children_at (nodes_of unit.now) handle) }
    ensures list { is_some result ≡ is_list (kind_of (nodes_of unit.now) handle) }
{
    let node = node_at(unit, handle)?;
    match node.kind {
        NodeKind::AttributeList => Some(&node.children),
        _ => None,
    }
}

/// With the attributes of a node, if it is a list of them.
pub fn marks_with_list(unit: &Unit, marks: Marks, handle: Handle) -> Result<Marks, AllocError>
    requires { unit.now.first ≡ 0 }
    ensures { IfOk result (λ after. marks_seen after ≡ list_marks (nodes_of unit.now) (marks_seen marks) handle) }
{
    match attributes_at(unit, handle) {
        Some(attributes) => marks_behind(unit, marks, attributes),
        None => Ok(marks),
    }
}

/// With the attributes of all lists among children.
pub fn marks_with_lists(unit: &Unit, marks: Marks, children: &TagList) -> Result<Marks, AllocError>
    requires { unit.now.first ≡ 0 }
    ensures { IfOk result (λ after. marks_seen after ≡ marks_over (nodes_of unit.now) (marks_seen marks) (handles_of children.now)) }
{
    let mut after = marks;
    for (child, _) in children.iter() {
        after = marks_with_list(unit, after, child)?;
    }
    Ok(after)
}

/// What the attributes of all lists among children add.
pub fn marks_among(unit: &Unit, children: &TagList) -> Result<Marks, AllocError>
    requires { unit.now.first ≡ 0 }
    ensures { IfOk result (λ marks. marks_seen marks ≡ meaning.marks_among (nodes_of unit.now) (handles_of children.now)) }
{
    marks_with_lists(unit, Marks::none(), children)
}

// With the attributes of the lists that stand one behind the other, directly behind this place.
fn marks_after(
    unit: &Unit,
    marks: Marks,
    children: &TagList,
    place: u32,
) -> Result<Marks, AllocError>
    requires { unit.now.first ≡ 0 }
    ensures { IfOk result (λ after. marks_seen after ≡ marks_over (nodes_of unit.now) (marks_seen marks) (lists_from (nodes_of unit.now) children.now (place + 1))) }
{
    let mut after = marks;
    for next in place.saturating_add(1)..children.len() {
        match attributes_at(unit, children.get(next).0) {
            Some(attributes) => after = marks_behind(unit, after, attributes)?,
            None => return Ok(after),
        }
    }
    Ok(after)
}

/// What the attributes directly behind the child at this place add besides.
pub fn marks_behind_place(
    unit: &Unit,
    marks: Marks,
    parent: Handle,
    place: u32,
) -> Result<Marks, AllocError>
    requires { unit.now.first ≡ 0 }
    ensures { IfOk result (λ after. marks_seen after ≡ marks_over (nodes_of unit.now) (marks_seen marks) (lists_behind (nodes_of unit.now) parent place)) }
{
    match node_at(unit, parent) {
        Some(node) => marks_after(unit, marks, &node.children, place),
        None => Ok(marks),
    }
}

// What the attributes of a node add, if they stand before a declarator that isn't the first one.
fn leading_marks(unit: &Unit, handle: Handle) -> Result<Marks, AllocError>
    requires { unit.now.first ≡ 0 }
    ensures { IfOk result (λ marks. marks_seen marks ≡ meaning.marks_among (nodes_of unit.now) (leading_lists (kind_of (nodes_of unit.now) handle) (children_at (nodes_of unit.now) handle))) }
{
    match node_at(unit, handle) {
        Some(node) => leading_marks_of(unit, node),
        None => Ok(Marks::none()),
    }
}

fn leading_marks_of(unit: &Unit, node: &Node) -> Result<Marks, AllocError>
    requires { unit.now.first ≡ 0 }
    ensures { IfOk result (λ marks. marks_seen marks ≡ meaning.marks_among (nodes_of unit.now) (leading_lists node.now.kind (handles_of node.now.children))) }
{
    match node.kind {
        NodeKind::LeadingAttributes => marks_among(unit, &node.children),
        _ => Ok(Marks::none()),
    }
}

/// What the attributes of the declarator at this place add, before it and directly behind it.
pub fn own_marks(unit: &Unit, parent: Handle, place: u32) -> Result<Marks, AllocError>
    requires { unit.now.first ≡ 0 }
    ensures { IfOk result (λ marks. marks_seen marks ≡ own_marks (nodes_of unit.now) parent place) }
{
    let before = child_at(unit, parent, place.saturating_sub(1));
    let marks = leading_marks(unit, before)?;
    marks_behind_place(unit, marks, parent, place)
}
