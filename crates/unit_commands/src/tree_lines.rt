// The line of a node.
ghost use Rattle.std.specs.Prelude.{◌≡◌, ◌++◌, OnOk};
ghost use Rattle.std.specs.Fmt.{decimal};
ghost use Rattle.c_tree.specs.Seen.{node_of};
ghost use Rattle.unit_commands.specs.TreeLines.{hidden_text, indentation, leading_text, line_and_column, name_text, node_line, number_shown, number_use, tag_text, value_text};
ghost use Rattle.unit_commands.specs.Trees.{source_seen};

use crate::source::Source;
use crate::words::{role_text, write_kind};
use c_tree::Node;
use itoa::Buffer;
use std::alloc::AllocError;
use vocabulary::NodeKind;

/// What the number of a node is.
#[derive(Clone, Copy)]
pub enum NumberUse {
    /// It has none.
    Nothing,
    /// A number of its own.
    Own,
    /// A number of its own where it has no name.
    OwnWithoutName,
    /// The index of a token.
    OfToken,
    /// The handle of a node.
    OfNode,
    /// The handle of a node and one, or 0.
    OfHidden,
}

// What the number of a node of this kind is.
fn number_use(kind: NodeKind) -> NumberUse
    ensures { result ≡ number_use kind }
{
    match kind {
        NodeKind::IntegerConstant(_)
        | NodeKind::CharacterConstant(_)
        | NodeKind::StringLiteral
        | NodeKind::AlignedAttribute
        | NodeKind::ContextStatement => NumberUse::Own,
        NodeKind::AddressSpaceAttribute => NumberUse::OwnWithoutName,
        NodeKind::StructSpecifier
        | NodeKind::UnionSpecifier
        | NodeKind::EnumSpecifier
        | NodeKind::AttributeList
        | NodeKind::CompoundStatement
        | NodeKind::DoStatement => NumberUse::OfToken,
        NodeKind::TypedefName | NodeKind::Name => NumberUse::OfNode,
        NodeKind::Enumerator | NodeKind::Declarator => NumberUse::OfHidden,
        _ => NumberUse::Nothing,
    }
}

/// Appends the line of a node that stands so deep, which is a part of this tag, or the root.
pub(crate) fn write_line(
    text: &mut Vec<u8>,
    source: &Source<'_>,
    depth: usize,
    tag: Option<u8>,
    node: &Node,
) -> Result<(), AllocError>
    requires { source.now.unit.now.first ≡ 0 }
    ensures { OnOk result (text.new.items ≡ text.old.items ++ node_line (source_seen source.now) depth tag (node_of node.now)) }
{
    indent(text, depth)?;
    write_role(text, tag)?;
    write_kind(text, node.kind)?;
    text.push(b' ')?;
    write_position(text, source, node.token as u64)?;
    write_name(text, source.spelling(node.name))?;
    write_number(text, source, node)?;
    text.push(b'\n')?;
    Ok(())
}

// Appends what a part is; the root is a part of nothing.
fn write_role(text: &mut Vec<u8>, tag: Option<u8>) -> Result<(), AllocError>
    ensures { OnOk result (text.new.items ≡ text.old.items ++ tag_text tag) }
{
    match tag {
        Some(tag) => text.extend_from_slice(role_text(tag)),
        None => Ok(()),
    }
}

// Appends two spaces for each level.
fn indent(text: &mut Vec<u8>, depth: usize) -> Result<(), AllocError>
    ensures { OnOk result (text.new.items ≡ text.old.items ++ indentation depth) }
{
    for _level in 0..depth {
        text.extend_from_slice(b"  ")?;
    }
    Ok(())
}

// Appends `LINE:COLUMN` of the token with this index.
fn write_position(text: &mut Vec<u8>, source: &Source<'_>, index: u64) -> Result<(), AllocError>
    ensures { OnOk result (text.new.items ≡ text.old.items ++ line_and_column source.now.tokens.now index) }
{
    let (line, column) = source.position(index);
    write_decimal(text, line as u64)?;
    text.push(b':')?;
    write_decimal(text, column as u64)
}

// Appends a space and a name; nothing where there is no name.
fn write_name(text: &mut Vec<u8>, name: &[u8]) -> Result<(), AllocError>
    ensures { OnOk result (text.new.items ≡ text.old.items ++ name_text name.now) }
{
    if name.is_empty() {
        return Ok(());
    }
    text.push(b' ')?;
    text.extend_from_slice(name)
}

// Appends the number of a node, or the place to which it leads.
fn write_number(text: &mut Vec<u8>, source: &Source<'_>, node: &Node) -> Result<(), AllocError>
    requires { source.now.unit.now.first ≡ 0 }
    ensures { OnOk result (text.new.items ≡ text.old.items ++ number_shown (source_seen source.now) (node_of node.now)) }
{
    match number_use(node.kind) {
        NumberUse::Nothing => Ok(()),
        NumberUse::Own => write_value(text, node.number),
        NumberUse::OwnWithoutName => {
            if source.spelling(node.name).is_empty() {
                write_value(text, node.number)
            } else {
                Ok(())
            }
        }
        NumberUse::OfToken => write_leading(text, source, node.number),
        NumberUse::OfNode => match source.node(node.number) {
            Some(node) => write_leading(text, source, node.token as u64),
            None => Ok(()),
        },
        NumberUse::OfHidden => write_hidden(text, source, node.number),
    }
}

// Appends that a declarator or an enumerator hides the one with the handle that is one less, if it hides one.
#[tactic(auto, using(crate::proofs::HiddenNames::hidden_none, crate::proofs::HiddenNames::hidden_some))]
fn write_hidden(text: &mut Vec<u8>, source: &Source<'_>, number: u64) -> Result<(), AllocError>
    requires { source.now.unit.now.first ≡ 0 }
    ensures { OnOk result (text.new.items ≡ text.old.items ++ hidden_text (source_seen source.now) number) }
{
    if number == 0 {
        return Ok(());
    }
    match source.node(number - 1) {
        Some(node) => write_leading(text, source, node.token as u64),
        None => Ok(()),
    }
}

fn write_value(text: &mut Vec<u8>, number: u64) -> Result<(), AllocError>
    ensures { OnOk result (text.new.items ≡ text.old.items ++ value_text number) }
{
    text.extend_from_slice(b" = ")?;
    write_decimal(text, number)
}

// Appends that a number leads to the token with this index.
fn write_leading(text: &mut Vec<u8>, source: &Source<'_>, index: u64) -> Result<(), AllocError>
    ensures { OnOk result (text.new.items ≡ text.old.items ++ leading_text source.now.tokens.now index) }
{
    text.extend_from_slice(b" -> ")?;
    write_position(text, source, index)
}

fn write_decimal(text: &mut Vec<u8>, number: u64) -> Result<(), AllocError>
    ensures { OnOk result (text.new.items ≡ text.old.items ++ decimal number) }
{
    let mut buffer = Buffer::new();
    text.extend_from_slice(buffer.format(number).as_bytes())
}
