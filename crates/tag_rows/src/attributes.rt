// Attributes among specifiers, and between the keyword of one and its tag (C11 6.7.2.1, 6.7.2.3): nodes in, what they add to the
// type out, and where `bitwise` stands among them. What the type is isn't known here.
ghost use Rattle.std.specs.Prelude.{◌≡◌, IfOk, option_map};
ghost use Rattle.meaning_rules.specs.Rules.{least_broken};
ghost use Rattle.meaning_typing.specs.Specifiers.{attributes_among, attributes_of, marks_behind, no_marks};
ghost use Rattle.meaning_typing.specs.Tags as meaning;
ghost use Rattle.meaning_typing.specs.Units.{children_at, kind_at as kind_of, node_at as node_of_unit};
ghost use Rattle.expression_rows.specs.Rows.{broken_seen};
ghost use Rattle.decl_judge.specs.Seen.{marks_over, marks_seen};
ghost use Rattle.decl_judge.specs.Units.{handles_of, nodes_of};
ghost use Rattle.tag_rows.specs.Attributes.{bitwise_over, word_broken};

use body_members::is_tagged;
use c_tree::{Handle, Node, Unit};
use decl_judge::{Marks, attributes_at, kind_at, marks_with_list, marks_with_lists, node_at};
use expression_rows::{Broken, broken_at, lesser};
use sparse_model::{ErrorKind, NodeKind};
use std::alloc::AllocError;
use tag_list::TagList;

// With the attributes of the lists below a node.
fn marks_with_below(unit: &Unit, marks: Marks, handle: Handle) -> Result<Marks, AllocError>
    requires { unit.now.first ≡ 0 }
    ensures { IfOk result (λ after. marks_seen after ≡ marks_over (nodes_of unit.now) (marks_seen marks) (children_at (nodes_of unit.now) handle)) }
{
    match node_at(unit, handle) {
        Some(node) => marks_with_lists(unit, marks, &node.children),
        None => Ok(marks),
    }
}

// With the attributes at a specifier: those of a list, or those in front of a tag.
fn marks_with_specifier(unit: &Unit, marks: Marks, handle: Handle) -> Result<Marks, AllocError>
    requires { unit.now.first ≡ 0 }
    ensures { IfOk result (λ after. marks_seen after ≡ marks_behind (nodes_of unit.now) (marks_seen marks) (meaning.tag_attributes (nodes_of unit.now) (kind_of (nodes_of unit.now) handle) (children_at (nodes_of unit.now) handle))) }
{
    if is_tagged(kind_at(unit, handle)) {
        marks_with_below(unit, marks, handle)
    } else {
        marks_with_list(unit, marks, handle)
    }
}

/// What attributes of specifiers add to their type: those among them, and those between a keyword and its tag. It takes a step
/// for each specifier, for each part of one that has a tag, and for each attribute.
pub fn marks_of_specifiers(unit: &Unit, children: &TagList) -> Result<Marks, AllocError>
    requires { unit.now.first ≡ 0 }
    ensures { IfOk result (λ marks. marks_seen marks ≡ marks_behind (nodes_of unit.now) no_marks (meaning.attributes_of_specifiers (nodes_of unit.now) (handles_of children.now))) }
{
    let mut marks = Marks::none();
    for (child, _) in children.iter() {
        marks = marks_with_specifier(unit, marks, child)?;
    }
    Ok(marks)
}

// What is broken by a word where the type is none of integers.
fn broken_by(node: &Node) -> Option<Broken>
    ensures { option_map broken_seen result ≡ least_broken (word_broken node.now.kind node.now.token) }
{
    match node.kind {
        NodeKind::BitwiseAttribute => broken_at(ErrorKind::BitwiseOnNoInteger, node.token),
        _ => None,
    }
}

fn broken_by_word(unit: &Unit, handle: Handle) -> Option<Broken>
    requires { unit.now.first ≡ 0 }
    ensures { option_map broken_seen result ≡ least_broken (word_broken (kind_of (nodes_of unit.now) handle) (node_of_unit (nodes_of unit.now) handle).token) }
{
    match node_at(unit, handle) {
        Some(node) => broken_by(node),
        None => None,
    }
}

// The lesser of this one and those of attributes.
fn bitwise_among(unit: &Unit, least: Option<Broken>, attributes: &TagList) -> Option<Broken>
    requires { unit.now.first ≡ 0 }
    ensures { option_map broken_seen result ≡ bitwise_over (nodes_of unit.now) (option_map broken_seen least) (handles_of attributes.now) }
{
    let mut found = least;
    for (attribute, _) in attributes.iter() {
        found = lesser(found, broken_by_word(unit, attribute));
    }
    found
}

// And those of a node, if it is a list of attributes.
fn bitwise_in_list(unit: &Unit, least: Option<Broken>, handle: Handle) -> Option<Broken>
    requires { unit.now.first ≡ 0 }
    ensures { option_map broken_seen result ≡ bitwise_over (nodes_of unit.now) (option_map broken_seen least) (attributes_of (kind_of (nodes_of unit.now) handle) (children_at (nodes_of unit.now) handle)) }
{
    match attributes_at(unit, handle) {
        Some(attributes) => bitwise_among(unit, least, attributes),
        None => least,
    }
}

// And those of all lists among children.
fn bitwise_in_lists(unit: &Unit, least: Option<Broken>, children: &TagList) -> Option<Broken>
    requires { unit.now.first ≡ 0 }
    ensures { option_map broken_seen result ≡ bitwise_over (nodes_of unit.now) (option_map broken_seen least) (attributes_among (nodes_of unit.now) (handles_of children.now)) }
{
    let mut found = least;
    for (child, _) in children.iter() {
        found = bitwise_in_list(unit, found, child);
    }
    found
}

// And those of the lists below a node.
fn bitwise_below(unit: &Unit, least: Option<Broken>, handle: Handle) -> Option<Broken>
    requires { unit.now.first ≡ 0 }
    ensures { option_map broken_seen result ≡ bitwise_over (nodes_of unit.now) (option_map broken_seen least) (attributes_among (nodes_of unit.now) (children_at (nodes_of unit.now) handle)) }
{
    match node_at(unit, handle) {
        Some(node) => bitwise_in_lists(unit, least, &node.children),
        None => least,
    }
}

// And those at a specifier: of a list, or in front of a tag.
fn bitwise_at(unit: &Unit, least: Option<Broken>, handle: Handle) -> Option<Broken>
    requires { unit.now.first ≡ 0 }
    ensures { option_map broken_seen result ≡ bitwise_over (nodes_of unit.now) (option_map broken_seen least) (meaning.tag_attributes (nodes_of unit.now) (kind_of (nodes_of unit.now) handle) (children_at (nodes_of unit.now) handle)) }
{
    if is_tagged(kind_at(unit, handle)) {
        bitwise_below(unit, least, handle)
    } else {
        bitwise_in_list(unit, least, handle)
    }
}

/// What `bitwise` breaks among the attributes of specifiers whose type is none of integers: `BitwiseOnNoInteger` at the least of
/// its tokens. It takes the steps of [`marks_of_specifiers`].
pub fn bitwise_of_specifiers(unit: &Unit, children: &TagList) -> Option<Broken>
    requires { unit.now.first ≡ 0 }
    ensures { option_map broken_seen result ≡ least_broken (meaning.bitwise_words (nodes_of unit.now) (meaning.attributes_of_specifiers (nodes_of unit.now) (handles_of children.now))) }
{
    let mut found = None;
    for (child, _) in children.iter() {
        found = bitwise_at(unit, found, child);
    }
    found
}
