// A body with its arguments in place (C11 6.10.3.1 to 6.10.3.3). Where it goes isn't known here.
ghost use Rattle.std.specs.Prelude.{◌≡◌, ◌<◌, ◌≤◌, ◌++◌, ◌∷◌, ℕ, List, [], map, length, vec_len, All, IfOk, OnOk};
ghost use Rattle.meaning_macros.specs.Bodies as bodies;
ghost use Rattle.meaning_macros.specs.Substitution.{part_of, substituted};
ghost use Rattle.number_sets.specs.NumberSets as sets;
ghost use Rattle.c_tokens.specs.Seen.{Extends, at_of};
ghost use Rattle.c_macros.specs.Arguments.{HasArguments, arguments_by};
ghost use Rattle.c_macros.specs.Laid.{LaidItems, Lays};
ghost use Rattle.c_macros.specs.Chains.{IsSplit, LaysMore, Pastes, begins_here, behind_joined, joined_here, lone_parameter, with_chain, with_parts};
ghost use Rattle.c_macros.specs.Operands.{grouped, operand_by, part_by};
ghost use Rattle.c_macros.specs.Reading.{HasName, HasSet, Reading, ReadsNames};
ghost use Rattle.c_macros.specs.Seen.{Spelling};
ghost use Rattle.c_macros.specs.Substitution.{Answers, AreKnownParts, IsKnownOperand};
ghost use Rattle.c_macros.specs.declared.item.Item.{Item};
ghost use Rattle.c_macros.specs.declared.substitution.SubstitutionFault.TheVariants.{Memory};

use crate::arguments::Arguments;
use crate::item::Item;
use crate::laid::{Laid, LaidEnd};
use crate::operand::{Operand, Part};
use crate::pasting::paste_chain;
use crate::placing::{argument_of, lead, push_all};
use c_tokens::Names;
use sparse_model::Place;
use std::alloc::{AllocError, Global};

/// Why a body isn't substituted.
#[derive(Clone, Copy, Debug, PartialEq, Eq)]
pub(crate) enum SubstitutionFault {
    /// A `##` makes no token (6.10.3.3 p3).
    BadPaste,
    /// More tokens than may be made.
    TooMany,
    Memory,
}

impl From<AllocError> for SubstitutionFault {
    ghost from_gives = { λ _ fault. fault ≡ Memory };

    fn from(_error: AllocError) -> SubstitutionFault {
        SubstitutionFault::Memory
    }
}

/// The operands of a body with the arguments in their place, as they go to the place of the macro's name.
///
/// At most so many tokens are made, which goes before a bad `##` behind them.
pub(crate) fn substitute(
    alloc: Global,
    names: &mut Names,
    parts: &[Part],
    place: Place,
    raw: Arguments<'_>,
    expanded: Arguments<'_>,
    most: u32,
    laid: &mut Laid,
) -> Result<(), SubstitutionFault>
    requires parts { AreKnownParts names.old parts.now }
    requires raw { All (HasName names.old) raw.items.now }
    requires expanded { All (HasName names.old) expanded.items.now }
    requires empty { Lays laid.old [] }
    ensures answer { (r : Reading) → ReadsNames names.new r → (raws readys : List (List Item)) → HasArguments raw.entry raws → HasArguments expanded.entry readys →
        Answers r most laid.new result (substituted (at_of place) (arguments_by r raws) (arguments_by r readys) (grouped (map (part_by r.spelled) parts.now))) }
    ensures count { OnOk result (length laid.new.items.items ≤ most) }
    ensures known { OnOk result (All (HasName names.new) laid.new.items.items) }
    ensures sets { (table : sets.Table) → 0 < length table → All (HasSet table) raw.entry.items.now → All (HasSet table) expanded.entry.items.now → OnOk result (All (HasSet table) laid.new.items.items) }
    ensures keeps { Extends names.old names.new }
{
    let mut rest = parts;
    while let Some((first, others)) = rest.split_first() {
        match lay_chain(
            alloc, names, first, others, place, raw, expanded, most, laid,
        ) {
            Ok(behind) => rest = behind,
            Err(fault) => return Err(fault),
        }
    }
    Ok(())
}

// Lays the chain at the front, and answers the operands behind it.
fn lay_chain<'p>(
    alloc: Global,
    names: &mut Names,
    first: &Part,
    others: &'p [Part],
    place: Place,
    raw: Arguments<'_>,
    expanded: Arguments<'_>,
    most: u32,
    laid: &mut Laid,
) -> Result<&'p [Part], SubstitutionFault>
    requires first { IsKnownOperand names.old first.now.operand }
    requires others { AreKnownParts names.old others.now }
    requires raw { All (HasName names.old) raw.items.now }
    requires expanded { All (HasName names.old) expanded.items.now }
    requires items { All (HasName names.old) laid.old.items.items }
    ensures answer { (parts : List LaidItems) → Lays laid.old parts → (r : Reading) → ReadsNames names.new r → (raws readys : List (List Item)) → HasArguments raw.entry raws → HasArguments expanded.entry readys →
        LaysMore r most laid.new result (λ later. with_parts r parts (with_chain (at_of place) (arguments_by r raws) (arguments_by r readys) (map (operand_by r.spelled) (first.now.operand ∷ joined_here others.now)) later)) }
    ensures rest { IfOk result (λ rest. rest.now ≡ behind_joined others.now) }
    ensures count { OnOk result (length laid.new.items.items ≤ most) }
    ensures known { OnOk result (All (HasName names.new) laid.new.items.items) }
    ensures sets { (table : sets.Table) → 0 < length table → All (HasSet table) laid.old.items.items → All (HasSet table) raw.entry.items.now → All (HasSet table) expanded.entry.items.now → OnOk result (All (HasSet table) laid.new.items.items) }
    ensures keeps { Extends names.old names.new }
{
    let start = laid.items.len();
    match put_chain(
        alloc,
        names,
        first.operand,
        others,
        place,
        raw,
        expanded,
        most,
        &mut laid.items,
    ) {
        Ok(rest) => {
            lead(&mut laid.items, start, false);
            if laid.items.len() > most as usize {
                return Err(SubstitutionFault::TooMany);
            }
            end_part(laid, space_of(first.operand))?;
            Ok(rest)
        }
        Err(fault) => Err(fault),
    }
}

// Puts the items of the chain at the front, and answers the operands behind it.
fn put_chain<'p>(
    alloc: Global,
    names: &mut Names,
    first: Operand,
    others: &'p [Part],
    place: Place,
    raw: Arguments<'_>,
    expanded: Arguments<'_>,
    most: u32,
    items: &mut Vec<Item>,
) -> Result<&'p [Part], SubstitutionFault>
    requires first { IsKnownOperand names.old first }
    requires others { AreKnownParts names.old others.now }
    requires raw { All (HasName names.old) raw.items.now }
    requires expanded { All (HasName names.old) expanded.items.now }
    requires items { All (HasName names.old) items.old.items }
    ensures found { (start : ℕ) (base : List Item) → IsSplit items.old.items start base [] → (r : Reading) → ReadsNames names.new r → (raws readys : List (List Item)) → HasArguments raw.entry raws → HasArguments expanded.entry readys →
        Pastes r most start base items.new.items result (part_of (at_of place) (arguments_by r raws) (arguments_by r readys) (map (operand_by r.spelled) (first ∷ joined_here others.now))) }
    ensures rest { IfOk result (λ rest. rest.now ≡ behind_joined others.now) }
    ensures known { OnOk result (All (HasName names.new) items.new.items) }
    ensures sets { (table : sets.Table) → 0 < length table → All (HasSet table) items.old.items → All (HasSet table) raw.entry.items.now → All (HasSet table) expanded.entry.items.now → OnOk result (All (HasSet table) items.new.items) }
    ensures keeps { Extends names.old names.new }
{
    match lone_argument(first, others) {
        Some(parameter) => {
            push_all(items, place, argument_of(expanded, parameter))?;
            Ok(others)
        }
        None => paste_chain(alloc, names, first, others, place, raw, most, items),
    }
}

// The parameter that is a chain alone, where these operands come behind it.
fn lone_argument(first: Operand, others: &[Part]) -> Option<u32>
    ensures { result ≡ lone_parameter first others.now }
{
    if let Operand::Argument { parameter, .. } = first {
        if begins_chain(others) {
            return Some(parameter);
        }
    }
    None
}

// A chain begins with the first of the operands, or there is none.
fn begins_chain(parts: &[Part]) -> bool
    ensures { result ≡ begins_here parts.now }
{
    match parts.first() {
        Some(part) => part.begins,
        None => true,
    }
}

// White space stands before the operand.
fn space_of(operand: Operand) -> bool
    ensures { (s : Spelling) → result ≡ bodies.space_of (operand_by s operand) }
{
    match operand {
        Operand::Own(token) => token.space_before,
        Operand::Argument { space, .. } => space,
        Operand::Stringized { space, .. } => space,
        Operand::CommaAndRest { comma, .. } => comma.space_before,
    }
}

// Ends a part at the last item.
fn end_part(laid: &mut Laid, space: bool) -> Result<(), AllocError>
    ensures items { laid.new.items ≡ laid.old.items }
    ensures ends { OnOk result (laid.new.ends.items ≡ laid.old.ends.items ++ record { space = space; end = vec_len laid.old.items } ∷ []) }
{
    let end = laid.items.len();
    laid.ends.push(LaidEnd { space, end })?;
    Ok(())
}
