// Members as they stand behind the specifiers of their declaration (C11 6.7.2.1): nodes in, the declarators out, each with its
// width and the alignment behind it. Types and names aren't known here.
ghost use Rattle.std.specs.Prelude.{◌≡◌, ◌++◌, [], Some, drop, IfOk, OnOk, map};
ghost use Rattle.std.specs.List.{cons_option};
ghost use Rattle.meaning_typing.specs.Declarators as declarators;
ghost use Rattle.meaning_typing.specs.MemberDeclarations.{PendingMembers, member_entries, pending_from, pending_with};
ghost use Rattle.meaning_typing.specs.Units.{kind_at as kind_of};
ghost use Rattle.decl_judge.specs.Units.{handles_of, nodes_of};
ghost use Rattle.body_members.specs.Entries.{IsAligned, entry_told, entry_with, open_and_behind, width_or};

use crate::alignment::alignment_of_list;
use c_tree::{Handle, Unit};
use decl_judge::{kind_at, node_at};
use sparse_model::NodeKind;
use std::alloc::{AllocError, Global};
use tag_list::TagList;

/// A member as it stands behind the specifiers of its declaration.
#[derive(Clone, Copy, Debug, PartialEq, Eq)]
pub struct Entry {
    pub declarator: Handle,
    /// The width of a bit-field.
    pub width: Option<Handle>,
    /// The largest alignment in bytes among the attributes behind it, or 1.
    pub written: u64,
}

fn is_declarator(kind: NodeKind) -> bool
    ensures { result ≡ declarators.is_declarator kind }
{
    match kind {
        NodeKind::Declarator => true,
        _ => false,
    }
}

// The first width counts.
fn width_or(width: Option<Handle>, later: Handle) -> Option<Handle>
    ensures { result ≡ width_or width (Some later) }
{
    match width {
        Some(width) => Some(width),
        None => Some(later),
    }
}

impl Entry {
    // With a part behind it that is no declarator.
    fn with_part(self, unit: &Unit, part: Handle) -> Entry
        requires { unit.now.first ≡ 0 }
        ensures { result ≡ entry_with (nodes_of unit.now) (kind_of (nodes_of unit.now) part) part self }
    {
        match kind_at(unit, part) {
            NodeKind::BitFieldWidth => Entry {
                width: width_or(self.width, part),
                ..self
            },
            NodeKind::AttributeList => Entry {
                written: alignment_of_list(unit, self.written, part),
                ..self
            },
            _ => self,
        }
    }
}

// The open entry is one of the entries.
fn close(entries: &mut Vec<Entry>, opened: Option<Entry>) -> Result<(), AllocError>
    ensures { OnOk result (entries.new.items ≡ entries.old.items ++ cons_option opened []) }
{
    if let Some(entry) = opened {
        entries.push(entry)?;
    }
    Ok(())
}

// One part more: a declarator opens an entry, and another part belongs to the open one, if there is one.
fn take_part(
    unit: &Unit,
    entries: &mut Vec<Entry>,
    opened: Option<Entry>,
    part: Handle,
) -> Result<Option<Entry>, AllocError>
    requires whole { unit.now.first ≡ 0 }
    requires aligned { IsAligned opened }
    ensures taken { IfOk result (λ after. (pending : PendingMembers) → entries.new.items ++ open_and_behind (nodes_of unit.now) after pending ≡ entries.old.items ++ open_and_behind (nodes_of unit.now) opened (pending_with (kind_of (nodes_of unit.now) part) part pending)) }
    ensures aligned { IfOk result IsAligned }
{
    if is_declarator(kind_at(unit, part)) {
        close(entries, opened)?;
        return Ok(Some(Entry {
            declarator: part,
            width: None,
            written: 1,
        }));
    }
    match opened {
        Some(entry) => Ok(Some(entry.with_part(unit, part))),
        None => Ok(None),
    }
}

// The members among the parts of a declaration, of which the first one is its specifiers.
fn entries_among(alloc: Global, unit: &Unit, parts: &TagList) -> Result<Vec<Entry>, AllocError>
    requires { unit.now.first ≡ 0 }
    ensures { IfOk result (λ entries. entries.items ≡ map (entry_told (nodes_of unit.now)) (pending_from (nodes_of unit.now) (drop 1 (handles_of parts.now))).entries) }
{
    let mut entries = Vec::new(alloc);
    let mut opened = None;
    let mut parts = parts.iter();
    parts.next();
    for (part, _) in parts {
        opened = take_part(unit, &mut entries, opened, part)?;
    }
    close(&mut entries, opened)?;
    Ok(entries)
}

/// The members of a declaration as they stand behind its specifiers. It takes a step for each of its parts, and for each
/// attribute among them.
pub fn entries_of(alloc: Global, unit: &Unit, declaration: Handle) -> Result<Vec<Entry>, AllocError>
    requires { unit.now.first ≡ 0 }
    ensures { IfOk result (λ entries. entries.items ≡ map (entry_told (nodes_of unit.now)) (member_entries (nodes_of unit.now) declaration)) }
{
    match node_at(unit, declaration) {
        Some(node) => entries_among(alloc, unit, &node.children),
        None => Ok(Vec::new(alloc)),
    }
}
