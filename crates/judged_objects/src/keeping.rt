// What one declaration more adds to what is kept of objects: the maps in and out, and what the declaration says itself.
ghost use Rattle.std.specs.Prelude.{◌≡◌, ◌&&◌, ℕ, pos, IfOk, OnErr, OnOk, Some, option_map, if◌then◌else◌};
ghost use Rattle.sparse_model.specs.declared.ids.NameId.{NameId};
ghost use Rattle.indexmap.specs.IndexMap.{get};
ghost use Rattle.decl_judge.specs.Units.{nodes_of};
ghost use Rattle.linked_names.specs.Contexts.{sums_of};
ghost use Rattle.node_surroundings.specs.Seen.{surrounding_seen};
ghost use Rattle.judged_objects.specs.Kept.{linked_with, same_handle, same_name};
ghost use Rattle.judged_objects.specs.Notes.{counts_noted, note_said, says_something};

use crate::noreturn::says_noreturn;
use crate::note::ObjectNote;
use c_tree::{Handle, Unit};
use control_flow::ContextNote;
use declared_contexts::contexts_of;
use indexmap::IndexMap;
use linked_names::ContextSums;
use node_surroundings::Surrounding;
use sparse_model::NameId;
use std::alloc::AllocError;

/// An object or a function with linkage.
#[derive(Clone, Copy)]
pub struct LinkedObject {
    /// Its first declarator.
    pub object: Handle,
    /// What its declarations say so far.
    pub note: ObjectNote,
}

// A sum that doesn't fit in 63 bits is want of memory: a unit has too few contexts for one.
fn count_of(sum: u64) -> Result<i64, AllocError>
    ensures { IfOk result (λ count. count ≡ pos sum) }
{
    match i64::try_from(sum) {
        Ok(count) => Ok(count),
        Err(_) => Err(AllocError),
    }
}

fn counts_of(sums: ContextSums) -> Result<ContextNote, AllocError>
    ensures { IfOk result (λ counts. counts ≡ counts_noted (sums_of sums)) }
{
    Ok(ContextNote {
        enters: count_of(sums.enters)?,
        leaves: count_of(sums.leaves)?,
    })
}

fn counts_if(sums: Option<ContextSums>) -> Result<Option<ContextNote>, AllocError>
    ensures { IfOk result (λ counts. counts ≡ option_map counts_noted (option_map sums_of sums)) }
{
    match sums {
        Some(sums) => {
            let counts = counts_of(sums)?;
            Ok(Some(counts))
        }
        None => Ok(None),
    }
}

/// What a declarator says itself that stands so. It takes a step for each attribute, part and specifier.
pub fn note_of(
    unit: &Unit,
    declarator: Handle,
    surrounding: Surrounding,
) -> Result<ObjectNote, AllocError>
    requires { unit.now.first ≡ 0 }
    ensures { IfOk result (λ note. note ≡ note_said (nodes_of unit.now) declarator (surrounding_seen surrounding)) }
{
    let sums = contexts_of(unit, declarator, surrounding.parent, surrounding.place)?;
    let contexts = counts_if(sums)?;
    let is_noreturn = says_noreturn(unit, declarator, surrounding.parent, surrounding.place);
    Ok(ObjectNote {
        contexts,
        is_noreturn,
    })
}

fn with_declarator(
    found: Option<LinkedObject>,
    declarator: Handle,
    note: ObjectNote,
) -> LinkedObject
    ensures { result ≡ linked_with found declarator note }
{
    match found {
        Some(earlier) => LinkedObject {
            object: earlier.object,
            note: earlier.note.and(note),
        },
        None => LinkedObject {
            object: declarator,
            note,
        },
    }
}

/// Keeps a declarator of this name, which has linkage.
pub fn keep_linked(
    linked: &mut IndexMap<NameId, LinkedObject>,
    name: NameId,
    declarator: Handle,
    note: ObjectNote,
) -> Result<(), AllocError>
    ensures { OnOk result ((other : NameId) → get same_name linked.new other ≡ (if same_name name other then Some (linked_with (get same_name linked.old name) declarator note) else get same_name linked.old other)) }
{
    let object = with_declarator(linked.get(&name).copied(), declarator, note);
    linked.insert(name, object)?;
    Ok(())
}

/// Keeps a declarator without linkage, if it says something.
pub fn keep_unlinked(
    unlinked: &mut IndexMap<Handle, ObjectNote>,
    declarator: Handle,
    note: ObjectNote,
) -> Result<(), AllocError>
    ensures { OnOk result ((other : ℕ) → get same_handle unlinked.new other ≡ (if same_handle declarator other && says_something note then Some note else get same_handle unlinked.old other)) }
{
    if !note.says_something() {
        return Ok(());
    }
    unlinked.insert(declarator, note)?;
    Ok(())
}
