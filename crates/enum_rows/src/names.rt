// What is known of a name that stands for an enumerator (C11 6.7.2.2 p3; that all share a restricted type is our choice). Where the
// name stands isn't known here.
ghost use Rattle.std.specs.Prelude.{◌≡◌, IfOk, List, OnOk, true};
ghost use Rattle.meaning_typing.specs.EnumRows.{SeenEnumerator, enumerator_named, named_value, value_in, values_of};
ghost use Rattle.node_facts.specs.Facts.{IsKnownNodeFact, node_seen};
ghost use Rattle.node_facts.specs.Growing.{TypesJoin};
ghost use Rattle.enum_rows.specs.Names.{IsSharing, fact_of_value, fact_shared, fact_with};
ghost use Rattle.enum_rows.specs.Values.{IsKept};

use crate::integers::{IntegerType, RestrictedType};
use crate::types::make_constant;
use crate::values::{EnumeratorValue, value_in};
use c_types::{Types, promoted_kind};
use node_facts::{NodeFact, wrapped};
use std::alloc::AllocError;

/// What an enumeration says of the types of its enumerators, where they are named behind it.
#[derive(Clone, Copy, Debug, PartialEq, Eq)]
pub enum Sharing {
    /// Nothing: one of them isn't known.
    Unknown,
    /// Each has its own.
    Own,
    /// All have this one.
    Shared(RestrictedType),
}

// Whether 64 bits tell the number of a value.
fn is_kept(value: EnumeratorValue) -> bool
    ensures { result ≡ true → IsKept value }
{
    wrapped(promoted_kind(value.of.kind), value.number) == value.number
}

// A constant. The number of an enumerator is one of its kind, and types of one identity have one kind, so none is met that 64 bits
// don't tell.
fn fact_of_value(types: &mut Types, value: EnumeratorValue) -> Result<NodeFact, AllocError>
    ensures fact { IfOk result (λ fact. node_seen types.new fact ≡ fact_of_value value) }
    ensures known { IfOk result (IsKnownNodeFact types.new) }
    ensures keeps { OnOk result (TypesJoin types.old types.new) }
{
    if is_kept(value) {
        make_constant(types, value)
    } else {
        Err(AllocError)
    }
}

// An enumerator behind its enumeration.
fn fact_with(
    types: &mut Types,
    sharing: Sharing,
    value: EnumeratorValue,
) -> Result<NodeFact, AllocError>
    ensures fact { IfOk result (λ fact. node_seen types.new fact ≡ fact_with sharing value) }
    ensures known { IfOk result (IsKnownNodeFact types.new) }
    ensures keeps { OnOk result (TypesJoin types.old types.new) }
{
    match sharing {
        Sharing::Unknown => Ok(NodeFact::Unknown),
        Sharing::Own => fact_of_value(types, value),
        Sharing::Shared(shared) => fact_of_value(
            types,
            EnumeratorValue {
                of: IntegerType::restricted(shared),
                number: value.number,
            },
        ),
    }
}

fn fact_shared(
    types: &mut Types,
    sharing: Sharing,
    value: Option<EnumeratorValue>,
) -> Result<NodeFact, AllocError>
    ensures fact { IfOk result (λ fact. node_seen types.new fact ≡ fact_shared sharing value) }
    ensures known { IfOk result (IsKnownNodeFact types.new) }
    ensures keeps { OnOk result (TypesJoin types.old types.new) }
{
    match value {
        Some(value) => fact_with(types, sharing, value),
        None => Ok(NodeFact::Unknown),
    }
}

// By what is known of the enumerator itself.
fn fact_behind(types: &mut Types, sharing: Sharing, fact: NodeFact) -> Result<NodeFact, AllocError>
    requires { IsKnownNodeFact types.old fact }
    ensures fact { IfOk result (λ named. (list : List SeenEnumerator) → IsSharing sharing list → node_seen types.new named ≡ named_value (values_of list) (value_in (node_seen types.old fact))) }
    ensures known { IfOk result (IsKnownNodeFact types.new) }
    ensures keeps { OnOk result (TypesJoin types.old types.new) }
{
    let value = value_in(types, fact);
    let named = fact_shared(types, sharing, value)?;
    Ok(named)
}

/// What is known of a name that stands for an enumerator of which this is known: behind its enumeration it has the type that all
/// share, if they do, and in it its own one. It takes a few steps. A number that 64 bits don't tell in that type is want of memory
/// too.
pub fn enumerator_name(
    types: &mut Types,
    is_behind: bool,
    sharing: Sharing,
    fact: NodeFact,
) -> Result<NodeFact, AllocError>
    requires { IsKnownNodeFact types.old fact }
    ensures fact { IfOk result (λ named. (list : List SeenEnumerator) → IsSharing sharing list → node_seen types.new named ≡ enumerator_named is_behind list (node_seen types.old fact)) }
    ensures known { IfOk result (IsKnownNodeFact types.new) }
    ensures keeps { OnOk result (TypesJoin types.old types.new) }
{
    if is_behind {
        fact_behind(types, sharing, fact)
    } else {
        Ok(fact)
    }
}
