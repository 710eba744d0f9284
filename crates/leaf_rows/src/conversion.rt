// A leaf becomes a value of its part's type, as by assignment (C11 6.7.9 p11, 6.5.16.1): what that breaks, and which rule fails.
ghost use Rattle.std.specs.Prelude.{◌≡◌, option_map};
ghost use Rattle.meaning_operands.specs.Conversions as conversions;
ghost use Rattle.meaning_rules.specs.Rules.{least_broken};
ghost use Rattle.meaning_typing.specs.Facts as facts;
ghost use Rattle.meaning_typing.specs.Rows as meaning;
ghost use Rattle.c_types.specs.Operands.{typed_operand};
ghost use Rattle.c_types.specs.Table.{IsTypeId, type_at};
ghost use Rattle.space_rules.specs.Seen.{convert_seen};
ghost use Rattle.expression_rows.specs.Facts.{IsValued, valued_seen};
ghost use Rattle.expression_rows.specs.Outlines.{is_integer_outline};
ghost use Rattle.expression_rows.specs.Rows.{broken_seen, converted_told};
ghost use Rattle.leaf_rows.specs.Leaves.{IsKnownConversion, conversion_seen, failed};

use c_types::{Operand, Outline, Types};
use expression_rows::{Broken, Valued, broken_at, is_void, number_of};
use space_rules::{ConvertAnswer, Position, convert_rule};
use sparse_model::{ErrorKind, Failure, NameId, RuleCode, TypeId};

// The part of failures at an initializer.
const INITIALIZER_PART: u16 = 256;

/// The constraint that a conversion breaks, or the rule that fails.
#[derive(Clone, Copy)]
pub struct Conversion {
    pub broken: Option<Broken>,
    pub failure: Option<Failure>,
}

fn is_integer_outline(outline: Outline) -> bool
    ensures { result ≡ is_integer_outline outline }
{
    match outline {
        Outline::Integer(_) => true,
        _ => false,
    }
}

#[tactic(auto, using(crate::proofs::ConversionLemmas::is_plain_integer_told))]
fn is_plain_integer(types: &Types, t: TypeId) -> bool
    requires { IsTypeId types.now t }
    ensures { result ≡ facts.is_plain_integer (type_at types.now t) }
{
    is_integer_outline(types.outline(t))
}

fn is_zero(number: Option<i128>) -> bool
    ensures { result ≡ facts.is_zero_number number }
{
    match number {
        None => false,
        Some(number) => number == 0,
    }
}

// A value as a conversion sees it.
fn operand_of(types: &Types, from: Valued) -> Operand
    requires { IsValued types.now from }
    ensures operand { typed_operand types.now result ≡ facts.operand_of (valued_seen types.now from) }
    ensures known { IsTypeId types.now result.of }
{
    Operand {
        of: from.value,
        fouled: from.fact.node.value.fouled,
        zero: is_plain_integer(types, from.value) && is_zero(number_of(types, from.fact)),
    }
}

// There is no such conversion.
fn not_convertible(types: &Types, token: u32, from: Valued) -> Option<Broken>
    requires { IsValued types.now from }
    ensures { option_map broken_seen result ≡ least_broken (meaning.not_convertible token token (valued_seen types.now from)) }
{
    if is_void(types, from.value) {
        broken_at(ErrorKind::VoidValueUsed, token)
    } else {
        broken_at(ErrorKind::IncompatibleTypes, token)
    }
}

// This rule fails.
fn fails(rule: RuleCode, token: u32, from: Valued, to: TypeId) -> Failure
    ensures { result ≡ failed rule token from.value to }
{
    Failure {
        token,
        rule,
        part: INITIALIZER_PART,
        first: Some(to),
        second: Some(from.value),
        name: NameId(0),
        number: 0,
        wanted: 0,
    }
}

// By the answer.
fn converted_by(
    types: &Types,
    answer: ConvertAnswer,
    token: u32,
    from: Valued,
    to: TypeId,
) -> Conversion
    requires from { IsValued types.now from }
    requires to { IsTypeId types.now to }
    ensures converted { conversion_seen types.now result ≡ converted_told (meaning.converted_by (convert_seen answer) token 256 token (valued_seen types.now from) (type_at types.now to)) }
    ensures known { IsKnownConversion types.now result }
{
    match answer {
        ConvertAnswer::Fine => Conversion {
            broken: None,
            failure: None,
        },
        ConvertAnswer::Fails(rule) => Conversion {
            broken: None,
            failure: Some(fails(rule, token, from, to)),
        },
        ConvertAnswer::Constraint => Conversion {
            broken: not_convertible(types, token, from),
            failure: None,
        },
    }
}

/// What the conversion of a leaf at this token to a type breaks, or which rule fails.
pub fn convert(types: &Types, token: u32, from: Valued, to: TypeId) -> Conversion
    requires from { IsValued types.now from }
    requires to { IsTypeId types.now to }
    ensures converted { conversion_seen types.now result ≡ converted_told (meaning.converted token 256 token (valued_seen types.now from) (type_at types.now to)) }
    ensures known { IsKnownConversion types.now result }
{
    let operand = operand_of(types, from);
    let answer = convert_rule(
        types,
        operand,
        from.fact.marks.is_null,
        to,
        Position::Initializer,
    );
    converted_by(types, answer, token, from, to)
}
