// What a leaf breaks that its part takes by its value, and which rule fails: it becomes a value of the part's type (C11 6.7.9 p11,
// p13), and is constant where the object is static (p4). Of an expression of which nothing is known neither is asked.
ghost use Rattle.std.specs.Prelude.{◌≡◌, Bool, IfSome, if◌then◌else◌};
ghost use Rattle.meaning_initializers.specs.Parts.{bounded};
ghost use Rattle.meaning_typing.specs.Facts.{Expression};
ghost use Rattle.c_types.specs.Table.{IsTypeId, type_at};
ghost use Rattle.expression_rows.specs.Facts.{IsValued, valued_part, valued_seen};
ghost use Rattle.leaf_rows.specs.Leaves.{IsKnownLeaf, leaf_seen, leaf_told};

use crate::constant::not_constant;
use crate::conversion::convert;
use c_types::Types;
use expression_rows::{Broken, Valued, lesser};
use sparse_model::{Failure, TypeId};

/// What a leaf breaks, and which rule fails.
#[derive(Clone, Copy)]
pub struct LeafRow {
    /// The least constraint.
    pub broken: Option<Broken>,
    pub failure: Option<Failure>,
}

// Of which this is known.
fn judge_known(types: &Types, is_static: bool, token: u32, from: Valued, to: TypeId) -> LeafRow
    requires from { IsValued types.now from }
    requires to { IsTypeId types.now to }
    ensures row { leaf_seen types.now result ≡ leaf_told is_static (type_at types.now to) token (Expression (valued_seen types.now from)) }
    ensures known { IsKnownLeaf types.now result }
{
    let conversion = convert(types, token, from, to);
    let constant = not_constant(types, is_static, token, from.fact);
    LeafRow {
        broken: lesser(conversion.broken, constant),
        failure: conversion.failure,
    }
}

// For a part of this very type.
#[tactic(auto, using(crate::proofs::ConversionLemmas::unknown_told))]
fn judge_type(
    types: &Types,
    is_static: bool,
    token: u32,
    part: Option<Valued>,
    to: TypeId,
) -> LeafRow
    requires part { IfSome part (IsValued types.now) }
    requires to { IsTypeId types.now to }
    ensures row { leaf_seen types.now result ≡ leaf_told is_static (type_at types.now to) token (valued_part types.now part) }
    ensures known { IsKnownLeaf types.now result }
{
    match part {
        Some(from) => judge_known(types, is_static, token, from, to),
        None => LeafRow {
            broken: None,
            failure: None,
        },
    }
}

/// The row of a leaf at this token, of which something may be known, for a part of this type. Its failures are of part 256. A member
/// that is an array without a length is as one of length 0: neither takes a value. It takes no memory, and a few steps.
pub fn judge_leaf(
    types: &Types,
    is_static: bool,
    token: u32,
    part: Option<Valued>,
    to: TypeId,
) -> LeafRow
    requires part { IfSome part (IsValued types.now) }
    requires to { IsTypeId types.now to }
    ensures row { (is_member : Bool) → leaf_seen types.now result ≡ leaf_told is_static (if is_member then bounded (type_at types.now to) else type_at types.now to) token (valued_part types.now part) }
    ensures known { IsKnownLeaf types.now result }
{
    judge_type(types, is_static, token, part, to)
}
