// A whole attribute list: its tokens arrive, and what its items come to leaves, or why it is refused. What the list is of isn't
// known here.
ghost use Rattle.std.specs.Prelude.{◌≡◌, ◌↔◌, ◌++◌, ◌<◌, ◌≤◌, ◌^◌, List, ℕ, Ok, Err, Option, None, IsErrOf, OnErr, OnOk, length, map, option_map, take};
ghost use Rattle.meaning_attributes.specs.Pieces.{comma_pieces};
ghost use Rattle.meaning_attributes.specs.Attributes.{Attributes, FunctionContext};
ghost use Rattle.meaning_attributes.specs.Items.{meaning_of};
ghost use Rattle.meaning_attributes.specs.Reading.{Refusal, attributes_read, bad_or, passes_limit, with_items};
ghost use Rattle.c_tokens.specs.Seen.{toks_of};
ghost use Rattle.c_attrs.specs.Seen.{attrs_seen, context_seen, fault_telling};
ghost use Rattle.c_attrs.specs.Meanings.{meaning_seen};
ghost use Rattle.c_attrs.specs.Parts.{contexts_among, contexts_meant, contexts_of, first_of, refusal_in, refusal_of, replacing_contexts};

use crate::attribute::{Attribute, Attrs};
use crate::fault::AttrFault;
use crate::item::{meaning_of, read_item};
use crate::meaning::{Bad, Meaning};
use crate::piece::first_piece;
use crate::token::extensions_len;
use c_tokens::{Names, Token};
use sparse_model::{ContextEntry, ContextList};
use std::alloc::{AllocError, Global};

/// Adds the attributes of one list to those that were read before: the tokens are those between its double
/// parentheses. It takes time that is linear in them.
///
/// # Errors
/// `StepLimit` where some context has a number above 1,000,000. Else the fault of the first bad item, with
/// the index of its word. Memory may be wanting only where there is neither. After a refusal the attributes
/// are as before.
pub fn read_attrs(
    alloc: Global,
    names: &Names,
    toks: &[Token],
    attrs: &mut Attrs,
) -> Result<(), AttrFault>
    requires few { length toks.now < 2 ^ 32 }
    ensures ok { OnOk result (attributes_read (attrs_seen names.now attrs.old) (toks_of names.now toks.now) ≡ Ok (attrs_seen names.now attrs.new)) }

    // Each refusal is told, and no other is, but for want of memory.
    ensures refused { (refusal : Refusal) → IsErrOf result (fault_telling refusal)
        ↔ (attributes_read (attrs_seen names.now attrs.old) (toks_of names.now toks.now) ≡ Err refusal) }
    ensures err { OnErr result (attrs.new ≡ attrs.old) }
{
    if let Some(fault) = refusal(names, toks) {
        return Err(fault);
    }
    // Contexts alone take memory, so they go first.
    append_contexts(names, toks, &mut attrs.contexts)?;
    set_others(names, toks, attrs);
    Ok(())
}

/// Why a list with these tokens between its double parentheses is refused, if it is, as [`read_attrs`] tells it. It takes no
/// memory.
pub fn list_refusal(names: &Names, toks: &[Token]) -> Option<AttrFault>
    requires few { length toks.now < 2 ^ 32 }
    ensures { (before : Attributes) → result ≡ option_map fault_telling (refusal_in (attributes_read before (toks_of names.now toks.now))) }
{
    refusal(names, toks)
}

// Why the list is refused, if it is.
fn refusal(names: &Names, toks: &[Token]) -> Option<AttrFault>
    requires few { length toks.now < 2 ^ 32 }
    ensures { result ≡ option_map fault_telling (refusal_of (comma_pieces (toks_of names.now toks.now))) }
{
    let mut bad = None;
    let mut start: usize = 0;
    let mut left = Some(toks);
    'items: while let Some(list) = left {
        let (item, others) = first_piece(list);
        let meaning = meaning_of(names, item);
        if passes_limit(meaning) {
            return Some(AttrFault::StepLimit);
        }
        let word = start + extensions_len(names, item);
        bad = earlier_or(bad, meaning, word as u32);
        start += item.len() + 1;
        left = others;
    }
    bad
}

fn passes_limit(meaning: Meaning) -> bool
    ensures { (names : List (List ℕ)) → result ≡ passes_limit (meaning_seen names meaning) }
{
    matches!(meaning, Meaning::PassesLimit)
}

// The fault that was found before, or else that of an item whose word has this index.
fn earlier_or(before: Option<AttrFault>, meaning: Meaning, word: u32) -> Option<AttrFault>
    ensures { (names : List (List ℕ)) (found : Option Refusal) → before ≡ option_map fault_telling found →
        result ≡ option_map fault_telling (first_of found (bad_or (meaning_seen names meaning) word None)) }
{
    match (before, meaning) {
        (None, Meaning::Bad(Bad::Space)) => Some(AttrFault::BadSpace(word)),
        (None, Meaning::Bad(Bad::Context)) => Some(AttrFault::BadContext(word)),
        (None, Meaning::Bad(Bad::Align)) => Some(AttrFault::BadAlign(word)),
        _ => before,
    }
}

// Appends the contexts of the list's items.
fn append_contexts(
    names: &Names,
    toks: &[Token],
    contexts: &mut ContextList,
) -> Result<(), AllocError>
    ensures ok { OnOk result (map context_seen contexts.new ≡ map context_seen contexts.old ++ contexts_among (comma_pieces (toks_of names.now toks.now))) }
    ensures err { OnErr result (contexts.new ≡ contexts.old) }
{
    let before = contexts.len();
    let pushed = push_contexts(names, toks, contexts);
    if pushed.is_err() {
        contexts.truncate(before);
    }
    pushed
}

// Appends the contexts of the list's items, or some of them.
fn push_contexts(
    names: &Names,
    toks: &[Token],
    contexts: &mut ContextList,
) -> Result<(), AllocError>
    ensures ok { OnOk result (map context_seen contexts.new ≡ map context_seen contexts.old ++ contexts_among (comma_pieces (toks_of names.now toks.now))) }
    ensures before { take (length contexts.old) contexts.new ≡ contexts.old }
{
    let mut left = Some(toks);
    'items: while let Some(list) = left {
        let (item, others) = first_piece(list);
        left = others;
        if let Some(entry) = context_of(names, item) {
            if let Err((refused, _)) = contexts.push(entry) {
                return Err(refused);
            }
        }
    }
    Ok(())
}

// The context that an item means.
fn context_of(names: &Names, item: &[Token]) -> Option<ContextEntry>
    ensures { contexts_meant (meaning_of (toks_of names.now item.now)) ≡ contexts_of result }
{
    match meaning_of(names, item) {
        Meaning::Means(Attribute::Context(entry)) => Some(entry),
        _ => None,
    }
}

// Sets what the list's items say, but for contexts.
fn set_others(names: &Names, toks: &[Token], attrs: &mut Attrs)
    ensures others { (contexts : List FunctionContext) → replacing_contexts (attrs_seen names.now attrs.new) contexts
        ≡ replacing_contexts (with_items (attrs_seen names.now attrs.old) (comma_pieces (toks_of names.now toks.now))) contexts }
    ensures contexts { attrs.new.contexts ≡ attrs.old.contexts }
{
    let mut left = Some(toks);
    'items: while let Some(list) = left {
        let (item, others) = first_piece(list);
        left = others;
        if let Some(attribute) = read_item(names, item) {
            attrs.set(attribute);
        }
    }
}
