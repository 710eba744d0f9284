// What a cast does to an address space and to a restricted type.
ghost use Rattle.std.specs.Prelude.{◌≡◌, IfSome, Some, option_map};
ghost use Rattle.meaning_types.specs.Types.{flags_of, is_space};
ghost use Rattle.meaning_types.specs.Equality.{are_equal_spaces};
ghost use Rattle.meaning_typing.specs.Casts as meaning;
ghost use Rattle.meaning_typing.specs.Facts.{type_of_value};
ghost use Rattle.c_types.specs.Table.{IsTypeId, space_of, type_at};
ghost use Rattle.expression_rows.specs.Casts.{is_unsigned_long_outline, space_in};
ghost use Rattle.expression_rows.specs.Facts.{IsValued, valued_seen};
ghost use Rattle.expression_rows.specs.Rows.{IsKnownFailure, failure_listed};

use crate::row::failed;
use crate::value::Valued;
use c_types::{Outline, Types, are_one_identity};
use sparse_model::{Failure, IntKind, RuleCode, Space, TypeId};

fn is_space(space: Space) -> bool
    ensures { result ≡ is_space (space_of space) }
{
    match space {
        Space::None => false,
        Space::Number(_) => true,
        Space::Named(_) => true,
    }
}

// Whether both are no space, or one space.
fn are_equal_spaces(space: Space, other: Space) -> bool
    ensures { result ≡ are_equal_spaces (space_of space) (space_of other) }
{
    match (space, other) {
        (Space::None, Space::None) => true,
        (Space::Number(number), Space::Number(another)) => number == another,
        (Space::Named(name), Space::Named(another)) => name == another,
        _ => false,
    }
}

fn told_space(types: &Types, t: TypeId) -> Space
    requires { IsTypeId types.now t }
    ensures { space_of result ≡ (flags_of (type_at types.now t)).space }
{
    types.shape(t).space
}

// The space of a type. The level of a function, which takes a step for each parameter, has no flags to ask for.
#[tactic(auto, using(crate::proofs::CastLemmas::no_space))]
fn space_at(types: &Types, t: TypeId) -> Space
    requires { IsTypeId types.now t }
    ensures { space_of result ≡ (flags_of (type_at types.now t)).space }
{
    if types.has_flag(t) {
        told_space(types, t)
    } else {
        Space::None
    }
}

fn space_in(types: &Types, target: Option<TypeId>) -> Option<Space>
    requires { IfSome target (IsTypeId types.now) }
    ensures { option_map space_of result ≡ space_in (option_map (type_at types.now) target) }
{
    match target {
        None => None,
        Some(target) => Some(space_at(types, target)),
    }
}

// The space of what a pointer points to.
#[tactic(auto, using(crate::proofs::CastLemmas::space_behind_told))]
fn space_behind(types: &Types, t: TypeId) -> Option<Space>
    requires { IsTypeId types.now t }
    ensures { option_map space_of result ≡ meaning.space_behind (type_at types.now t) }
{
    space_in(types, types.target(t))
}

fn is_unsigned_long(outline: Outline) -> bool
    ensures { result ≡ is_unsigned_long_outline outline }
{
    match outline {
        Outline::Integer(IntKind::ULong) => true,
        _ => false,
    }
}

// An unsigned long keeps a space.
#[tactic(auto, using(crate::proofs::CastLemmas::keeps_address_told))]
fn keeps_address(types: &Types, to: TypeId) -> bool
    requires { IsTypeId types.now to }
    ensures { result ≡ meaning.keeps_address (type_at types.now to) }
{
    is_unsigned_long(types.outline(to))
}

// An integer of another type loses a space, and a pointer with another one, or none, does.
fn removes_space(types: &Types, space: Space, to: TypeId, behind: Option<Space>) -> bool
    requires { IsTypeId types.now to }
    ensures { result ≡ meaning.removes_space (space_of space) (type_at types.now to) (option_map space_of behind) }
{
    match behind {
        None => is_space(space) && !keeps_address(types, to),
        Some(other) => is_space(space) && !are_equal_spaces(space, other),
    }
}

fn adds_space(space: Space, behind: Option<Space>) -> bool
    ensures { result ≡ meaning.adds_space (space_of space) (option_map space_of behind) }
{
    match behind {
        None => false,
        Some(other) => !is_space(space) && is_space(other),
    }
}

// A pointer to this space is cast.
fn space_changed(
    types: &Types,
    token: u32,
    from: Valued,
    to: TypeId,
    space: Space,
) -> Option<Failure>
    requires from { IsValued types.now from }
    requires to { IsTypeId types.now to }
    ensures failure { failure_listed types.now result ≡ meaning.space_failures token (type_of_value (valued_seen types.now from)) (type_at types.now to) (Some (space_of space)) }
    ensures known { IfSome result (IsKnownFailure types.now) }
{
    let behind = space_behind(types, to);
    if removes_space(types, space, to, behind) {
        Some(failed(RuleCode::A5, token, 0, Some(from.value), None))
    } else if adds_space(space, behind) {
        Some(failed(RuleCode::A6, token, 0, Some(to), None))
    } else {
        None
    }
}

fn space_failure_if(
    types: &Types,
    token: u32,
    from: Valued,
    to: TypeId,
    space: Option<Space>,
) -> Option<Failure>
    requires from { IsValued types.now from }
    requires to { IsTypeId types.now to }
    ensures failure { failure_listed types.now result ≡ meaning.space_failures token (type_of_value (valued_seen types.now from)) (type_at types.now to) (option_map space_of space) }
    ensures known { IfSome result (IsKnownFailure types.now) }
{
    match space {
        None => None,
        Some(space) => space_changed(types, token, from, to, space),
    }
}

/// A cast of a pointer removes the address space of what it points to, or adds one.
pub fn space_failure(types: &Types, token: u32, from: Valued, to: TypeId) -> Option<Failure>
    requires from { IsValued types.now from }
    requires to { IsTypeId types.now to }
    ensures failure { failure_listed types.now result ≡ meaning.space_failures token (type_of_value (valued_seen types.now from)) (type_at types.now to) (meaning.space_behind (type_of_value (valued_seen types.now from))) }
    ensures known { IfSome result (IsKnownFailure types.now) }
{
    space_failure_if(types, token, from, to, space_behind(types, from.value))
}

fn leaves_identity(types: &Types, zero: bool, from: Valued, to: TypeId) -> bool
    requires from { IsValued types.now from }
    requires to { IsTypeId types.now to }
    ensures { result ≡ meaning.leaves_identity zero (type_of_value (valued_seen types.now from)) (type_at types.now to) }
{
    !zero && !are_one_identity(types.identity(from.value), types.identity(to))
}

/// A cast leads from a restricted type to another type, or to one from a value that isn't the constant 0.
pub fn identity_failure(
    types: &Types,
    token: u32,
    zero: bool,
    from: Valued,
    to: TypeId,
) -> Option<Failure>
    requires from { IsValued types.now from }
    requires to { IsTypeId types.now to }
    ensures failure { failure_listed types.now result ≡ meaning.identity_failures token zero (type_of_value (valued_seen types.now from)) (type_at types.now to) }
    ensures known { IfSome result (IsKnownFailure types.now) }
{
    if leaves_identity(types, zero, from, to) {
        Some(failed(RuleCode::B4, token, 0, Some(from.value), Some(to)))
    } else {
        None
    }
}
