// Operands that `##` joins (C11 6.10.3.3), at the end of a vector. Which chains a body has isn't known here.
ghost use Rattle.std.specs.Prelude.{◌≡◌, ◌<◌, ◌+◌, [], ◌∷◌, List, All, OnOk, IfOk, map, length, ℕ, ◌++◌};
ghost use Rattle.meaning_macros.specs.Hiding.{led, set_at};
ghost use Rattle.meaning_macros.specs.Substitution.{BadBehind, Joins, chain_tokens, comma_before, operand_tokens, paste};
ghost use Rattle.number_sets.specs.NumberSets as sets;
ghost use Rattle.c_tokens.specs.Seen.{Extends, at_of};
ghost use Rattle.c_macros.specs.Arguments.{HasArguments, arguments_by};
ghost use Rattle.c_macros.specs.Chains.{IsSplit, Pastes, Stops, behind_joined, joined_here};
ghost use Rattle.c_macros.specs.Operands.{operand_by};
ghost use Rattle.c_macros.specs.Reading.{HasName, HasSet, Reading, ReadsNames, hiding_by, hidings_by};
ghost use Rattle.c_macros.specs.Substitution.{AreKnownParts, IsKnownOperand};
ghost use Rattle.c_macros.specs.declared.item.Item.{Item};

use crate::arguments::Arguments;
use crate::item::Item;
use crate::operand::{Operand, Part};
use crate::placing::{argument_of, lead, own_item, push_all, put_item};
use crate::stringizing::stringized;
use crate::substitution::SubstitutionFault;
use c_tokens::{Names, Token, one_token};
use number_sets::SetId;
use sparse_model::{NameId, Place, TokenKind};
use std::alloc::{AllocError, Global};

/// Puts what comes of the operands of a chain, and answers the operands behind it.
///
/// Where more than so many tokens are made before its end, it may stop.
pub(crate) fn paste_chain<'p>(
    alloc: Global,
    names: &mut Names,
    first: Operand,
    others: &'p [Part],
    place: Place,
    raw: Arguments<'_>,
    most: u32,
    items: &mut Vec<Item>,
) -> Result<&'p [Part], SubstitutionFault>
    requires first { IsKnownOperand names.old first }
    requires others { AreKnownParts names.old others.now }
    requires raw { All (HasName names.old) raw.items.now }
    requires items { All (HasName names.old) items.old.items }
    ensures pasted { (start : ℕ) (base : List Item) → IsSplit items.old.items start base [] → (r : Reading) → ReadsNames names.new r → (raws : List (List Item)) → HasArguments raw.entry raws →
        Pastes r most start base items.new.items result (chain_tokens (at_of place) (arguments_by r raws) (Joins []) (map (operand_by r.spelled) (first ∷ joined_here others.now))) }
    ensures rest { IfOk result (λ rest. rest.now ≡ behind_joined others.now) }
    ensures known { OnOk result (All (HasName names.new) items.new.items) }
    ensures sets { (table : sets.Table) → 0 < length table → All (HasSet table) items.old.items → All (HasSet table) raw.entry.items.now → OnOk result (All (HasSet table) items.new.items) }
    ensures keeps { Extends names.old names.new }
{
    let start = items.len();
    match paste_operand(alloc, names, first, place, raw, most, start, items) {
        Ok(()) => {}
        Err(fault) => return Err(fault),
    }
    let mut rest = others;
    while let Some((part, behind)) = rest.split_first() {
        if part.begins {
            return Ok(rest);
        }
        if items.len() > most as usize + 1 {
            return Err(SubstitutionFault::TooMany);
        }
        match paste_operand(alloc, names, part.operand, place, raw, most, start, items) {
            Ok(()) => rest = behind,
            Err(fault) => return Err(fault),
        }
    }
    Ok(rest)
}

// Puts what an operand is behind the items of its chain, which begin at `start`.
fn paste_operand(
    alloc: Global,
    names: &mut Names,
    operand: Operand,
    place: Place,
    raw: Arguments<'_>,
    most: u32,
    start: usize,
    items: &mut Vec<Item>,
) -> Result<(), SubstitutionFault>
    requires operand { IsKnownOperand names.old operand }
    requires raw { All (HasName names.old) raw.items.now }
    requires items { All (HasName names.old) items.old.items }
    ensures pasted { (base left : List Item) → IsSplit items.old.items start base left → (r : Reading) → ReadsNames names.new r → (raws : List (List Item)) → HasArguments raw.entry raws →
        Pastes r most start base items.new.items result (paste (hidings_by r left) (operand_tokens (at_of place) (arguments_by r raws) (operand_by r.spelled operand))) }
    ensures known { OnOk result (All (HasName names.new) items.new.items) }
    ensures sets { (table : sets.Table) → 0 < length table → All (HasSet table) items.old.items → All (HasSet table) raw.entry.items.now → OnOk result (All (HasSet table) items.new.items) }
    ensures keeps { Extends names.old names.new }
{
    match operand {
        Operand::Own(token) => {
            let item = own_item(token, place);
            paste_item(alloc, names, item, most, start, items)
        }
        Operand::Argument { parameter, .. } => {
            let argument = argument_of(raw, parameter);
            paste_all(alloc, names, argument, place, most, start, items)
        }
        Operand::Stringized { parameter, .. } => {
            let argument = argument_of(raw, parameter);
            match stringized(alloc, names, argument, place) {
                Ok(item) => paste_item(alloc, names, item, most, start, items),
                Err(_) => Err(SubstitutionFault::Memory),
            }
        }
        Operand::CommaAndRest {
            comma,
            space,
            parameter,
        } => {
            let comma = own_item(comma, place);
            let rest = argument_of(raw, parameter);
            paste_rest(alloc, names, comma, space, rest, place, most, start, items)
        }
    }
}

// An argument beside `##`, as it was written.
fn paste_all(
    alloc: Global,
    names: &mut Names,
    argument: &[Item],
    place: Place,
    most: u32,
    start: usize,
    items: &mut Vec<Item>,
) -> Result<(), SubstitutionFault>
    requires argument { All (HasName names.old) argument.now }
    requires items { All (HasName names.old) items.old.items }
    ensures pasted { (base left : List Item) → IsSplit items.old.items start base left → (r : Reading) → ReadsNames names.new r →
        Pastes r most start base items.new.items result (paste (hidings_by r left) (set_at (at_of place) (hidings_by r argument.now))) }
    ensures known { OnOk result (All (HasName names.new) items.new.items) }
    ensures sets { (table : sets.Table) → 0 < length table → All (HasSet table) items.old.items → All (HasSet table) argument.now → OnOk result (All (HasSet table) items.new.items) }
    ensures keeps { Extends names.old names.new }
{
    let Some((first, others)) = argument.split_first() else {
        return Ok(());
    };
    match paste_item(alloc, names, put_item(*first, place), most, start, items) {
        Ok(()) => {
            push_all(items, place, others)?;
            Ok(())
        }
        Err(fault) => Err(fault),
    }
}

// `, ## V`: nothing where V is empty; else the comma beside what stands before, and V apart from it.
fn paste_rest(
    alloc: Global,
    names: &mut Names,
    comma: Item,
    space: bool,
    rest: &[Item],
    place: Place,
    most: u32,
    start: usize,
    items: &mut Vec<Item>,
) -> Result<(), SubstitutionFault>
    requires comma { HasName names.old comma }
    requires rest { All (HasName names.old) rest.now }
    requires items { All (HasName names.old) items.old.items }
    ensures pasted { (base left : List Item) → IsSplit items.old.items start base left → (r : Reading) → ReadsNames names.new r →
        Pastes r most start base items.new.items result (paste (hidings_by r left) (comma_before (hiding_by r comma) (led space (set_at (at_of place) (hidings_by r rest.now))))) }
    ensures known { OnOk result (All (HasName names.new) items.new.items) }
    ensures sets { (table : sets.Table) → 0 < length table → All (HasSet table) items.old.items → HasSet table comma → All (HasSet table) rest.now → OnOk result (All (HasSet table) items.new.items) }
    ensures keeps { Extends names.old names.new }
{
    if rest.is_empty() {
        return Ok(());
    }
    match paste_item(alloc, names, comma, most, start, items) {
        Ok(()) => {
            let second = items.len();
            push_all(items, place, rest)?;
            lead(items, second, space);
            Ok(())
        }
        Err(fault) => Err(fault),
    }
}

// Joins an item to the last one of its chain, or puts it as the first.
fn paste_item(
    alloc: Global,
    names: &mut Names,
    item: Item,
    most: u32,
    start: usize,
    items: &mut Vec<Item>,
) -> Result<(), SubstitutionFault>
    requires item { HasName names.old item }
    requires items { All (HasName names.old) items.old.items }
    ensures pasted { (base left : List Item) → IsSplit items.old.items start base left → (r : Reading) → ReadsNames names.new r →
        Pastes r most start base items.new.items result (paste (hidings_by r left) (hiding_by r item ∷ [])) }
    ensures known { OnOk result (All (HasName names.new) items.new.items) }
    ensures sets { (table : sets.Table) → 0 < length table → All (HasSet table) items.old.items → HasSet table item → OnOk result (All (HasSet table) items.new.items) }
    ensures keeps { Extends names.old names.new }
{
    let count = items.len();
    if count <= start {
        push_one(items, item)?;
        return Ok(());
    }
    let last = items[count - 1];
    let Some((kind, name)) = one_token(alloc, names, last.token.name, item.token.name)? else {
        return Err(bad_paste(count - 1, most));
    };
    items[count - 1] = pasted_item(last, kind, name);
    Ok(())
}

// Why two tokens stop the body that make none, where so many stand before them.
fn bad_paste(before: usize, most: u32) -> SubstitutionFault
    ensures { (base count : ℕ) → base + count ≡ before → Stops most base result (BadBehind count) }
{
    if before > most as usize {
        return SubstitutionFault::TooMany;
    }
    SubstitutionFault::BadPaste
}

// The token that two make: it stands where the left one does, and hides nothing (6.10.3.3 p3).
fn pasted_item(left: Item, kind: TokenKind, name: NameId) -> Item
    ensures token { result.token ≡ record left.token { kind = kind; name = name } }
    ensures set { result.hides.0 ≡ 0 }
{
    let token = Token {
        kind,
        space_before: left.token.space_before,
        line_start: left.token.line_start,
        name,
        place: left.token.place,
    };
    Item {
        token,
        hides: SetId(0),
    }
}

fn push_one(items: &mut Vec<Item>, item: Item) -> Result<(), AllocError>
    ensures { OnOk result (items.new.items ≡ items.old.items ++ item ∷ []) }
{
    items.push(item)?;
    Ok(())
}
