// What a conversion of a part breaks, and which rule fails (C11 6.5.16.1).
ghost use Rattle.std.specs.Prelude.{◌≡◌, option_map};
ghost use Rattle.meaning_rules.specs.Rules.{least_broken};
ghost use Rattle.meaning_operands.specs.Conversions as conversions;
ghost use Rattle.meaning_typing.specs.Rows as meaning;
ghost use Rattle.space_rules.specs.Seen.{convert_seen};
ghost use Rattle.c_types.specs.Table.{IsTypeId, type_at};
ghost use Rattle.expression_rows.specs.Facts.{IsValued, valued_seen};
ghost use Rattle.expression_rows.specs.Rows.{IsKnownConversion, broken_seen, converted_seen, converted_told, no_conversion};

use crate::operand::{is_void_value, operand_of};
use crate::row::{Broken, broken_at, failed};
use crate::value::Valued;
use c_types::Types;
use space_rules::{ConvertAnswer, Position, convert_rule};
use sparse_model::{ErrorKind, Failure, RuleCode, TypeId};

/// The constraint that a conversion breaks, or the rule that fails.
#[derive(Clone, Copy)]
pub struct Converted {
    pub broken: Option<Broken>,
    pub failure: Option<Failure>,
}

/// Where a conversion stands: the token, the part of its node, and the token of the value.
#[derive(Clone, Copy)]
pub struct Standing {
    pub token: u32,
    pub part: u16,
    pub value: u32,
}

impl Converted {
    /// Nothing is broken, and nothing fails.
    pub fn fine() -> Converted
        ensures { result ≡ no_conversion }
    {
        Converted {
            broken: None,
            failure: None,
        }
    }
}

// It is none at all, which is told where it is tried, but for a void value.
fn not_convertible(types: &Types, at: Standing, from: Valued) -> Option<Broken>
    requires { IsValued types.now from }
    ensures { option_map broken_seen result ≡ least_broken (meaning.not_convertible at.token at.value (valued_seen types.now from)) }
{
    if is_void_value(types, from) {
        broken_at(ErrorKind::VoidValueUsed, at.value)
    } else {
        broken_at(ErrorKind::IncompatibleTypes, at.token)
    }
}

// A rule fails.
fn fails(types: &Types, rule: RuleCode, at: Standing, from: Valued, to: TypeId) -> Converted
    requires from { IsValued types.now from }
    requires to { IsTypeId types.now to }
    ensures converted { converted_seen types.now result ≡ converted_told (meaning.converted_by (conversions.Fails rule) at.token at.part at.value (valued_seen types.now from) (type_at types.now to)) }
    ensures known { IsKnownConversion types.now result }
{
    Converted {
        broken: None,
        failure: Some(failed(rule, at.token, at.part, Some(to), Some(from.value))),
    }
}

// By the answer.
fn converted_by(
    types: &Types,
    answer: ConvertAnswer,
    at: Standing,
    from: Valued,
    to: TypeId,
) -> Converted
    requires from { IsValued types.now from }
    requires to { IsTypeId types.now to }
    ensures converted { converted_seen types.now result ≡ converted_told (meaning.converted_by (convert_seen answer) at.token at.part at.value (valued_seen types.now from) (type_at types.now to)) }
    ensures known { IsKnownConversion types.now result }
{
    match answer {
        ConvertAnswer::Fine => Converted::fine(),
        ConvertAnswer::Fails(rule) => fails(types, rule, at, from, to),
        ConvertAnswer::Constraint => Converted {
            broken: not_convertible(types, at, from),
            failure: None,
        },
    }
}

/// A value becomes one of this type.
pub fn convert_part(
    types: &Types,
    at: Standing,
    from: Valued,
    to: TypeId,
    how: Position,
) -> Converted
    requires from { IsValued types.now from }
    requires to { IsTypeId types.now to }
    ensures converted { converted_seen types.now result ≡ converted_told (meaning.converted at.token at.part at.value (valued_seen types.now from) (type_at types.now to)) }
    ensures known { IsKnownConversion types.now result }
{
    let answer = convert_rule(
        types,
        operand_of(types, from),
        from.fact.marks.is_null,
        to,
        how,
    );
    converted_by(types, answer, at, from, to)
}
