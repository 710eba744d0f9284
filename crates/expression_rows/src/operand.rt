// What operators and conversions ask of a value.
ghost use Rattle.std.specs.Prelude.{◌≡◌, ◌&&◌, IfSome, is_some, option_map};
ghost use Rattle.meaning_types.specs.Spaces.{is_void};
ghost use Rattle.meaning_operands.specs.Operands.{is_restricted};
ghost use Rattle.meaning_typing.specs.Facts as meaning;
ghost use Rattle.meaning_typing.specs.Declarators.{is_function};
ghost use Rattle.meaning_typing.specs.Expressions as expressions;
ghost use Rattle.meaning_rules.specs.Rules.{least_broken};
ghost use Rattle.meaning_typing.specs.Rows.{void_used};
ghost use Rattle.c_types.specs.Operands.{typed_operand};
ghost use Rattle.c_types.specs.Table.{IsTypeId, integer_kind, pointed_at, type_at};
ghost use Rattle.node_facts.specs.Facts.{IsKnownFact, fact_seen};
ghost use Rattle.expression_rows.specs.Facts.{IsValued, valued_seen};
ghost use Rattle.expression_rows.specs.Outlines.{is_array_outline, is_function_outline, is_integer_outline};
ghost use Rattle.expression_rows.specs.Rows.{broken_seen};

use crate::row::{Broken, broken_at};
use crate::value::Valued;
use c_types::{Operand, Outline, Types};
use node_facts::{ExpressionFact, part_of};
use sparse_model::{ErrorKind, TypeId};

/// The number of its constant.
#[tactic(auto, using(crate::proofs::OperandLemmas::number_told))]
pub fn number_of(types: &Types, fact: ExpressionFact) -> Option<i128>
    requires { IsKnownFact types.now fact }
    ensures { result ≡ (fact_seen types.now fact).constant }
{
    part_of(types, fact.node).number
}

/// Whether it is the number 0.
pub fn is_zero_number(number: Option<i128>) -> bool
    ensures { result ≡ meaning.is_zero_number number }
{
    match number {
        None => false,
        Some(number) => number == 0,
    }
}

fn is_integer_outline(outline: Outline) -> bool
    ensures { result ≡ is_integer_outline outline }
{
    match outline {
        Outline::Integer(_) => true,
        _ => false,
    }
}

fn is_array_outline(outline: Outline) -> bool
    ensures { result ≡ is_array_outline outline }
{
    match outline {
        Outline::Array => true,
        _ => false,
    }
}

fn is_function_outline(outline: Outline) -> bool
    ensures { result ≡ is_function_outline outline }
{
    match outline {
        Outline::Function => true,
        _ => false,
    }
}

/// Whether a type is one of functions.
#[tactic(auto, using(crate::proofs::OperandLemmas::is_function_told))]
pub fn is_function(types: &Types, t: TypeId) -> bool
    requires { IsTypeId types.now t }
    ensures { result ≡ is_function (type_at types.now t) }
{
    is_function_outline(types.outline(t))
}

/// Whether a type is one of arrays or functions, which aren't loaded.
#[tactic(auto, using(crate::proofs::OperandLemmas::decays_told))]
pub fn decays(types: &Types, t: TypeId) -> bool
    requires { IsTypeId types.now t }
    ensures { result ≡ meaning.decays (type_at types.now t) }
{
    let outline = types.outline(t);
    is_array_outline(outline) || is_function_outline(outline)
}

/// Whether a type is void.
#[tactic(auto, using(crate::proofs::OperandLemmas::is_void_told))]
pub fn is_void(types: &Types, t: TypeId) -> bool
    requires { IsTypeId types.now t }
    ensures { result ≡ is_void (type_at types.now t) }
{
    types.outline(t).is_void()
}

/// Whether a type is one of arrays.
#[tactic(auto, using(crate::proofs::OperandLemmas::is_array_told))]
pub fn is_array(types: &Types, t: TypeId) -> bool
    requires { IsTypeId types.now t }
    ensures { result ≡ expressions.is_array (type_at types.now t) }
{
    is_array_outline(types.outline(t))
}

// Whether a type is a plain integer.
#[tactic(auto, using(crate::proofs::OperandLemmas::is_plain_integer_told))]
fn is_plain_integer(types: &Types, t: TypeId) -> bool
    requires { IsTypeId types.now t }
    ensures { result ≡ meaning.is_plain_integer (type_at types.now t) }
{
    is_integer_outline(types.outline(t))
}

/// Whether a value is void.
pub fn is_void_value(types: &Types, of: Valued) -> bool
    requires { IsValued types.now of }
    ensures { result ≡ is_void (meaning.type_of_value (valued_seen types.now of)) }
{
    is_void(types, of.value)
}

/// Whether a value is of a restricted type.
#[tactic(auto, using(crate::proofs::OperandLemmas::is_restricted_told))]
pub fn is_restricted_value(types: &Types, of: Valued) -> bool
    requires { IsValued types.now of }
    ensures { result ≡ is_restricted (meaning.type_of_value (valued_seen types.now of)) }
{
    types.identity(of.value).is_some()
}

/// Whether a value is an integer, restricted or not.
pub fn is_integer_value(types: &Types, of: Valued) -> bool
    requires { IsValued types.now of }
    ensures { result ≡ is_some (integer_kind (meaning.type_of_value (valued_seen types.now of))) }
{
    types.is_integer(of.value)
}

/// The type to which a value points, if it is a pointer.
pub fn target_of_value(types: &Types, of: Valued) -> Option<TypeId>
    requires { IsValued types.now of }
    ensures target { option_map (type_at types.now) result ≡ pointed_at (meaning.type_of_value (valued_seen types.now of)) }
    ensures known { IfSome result (IsTypeId types.now) }
{
    types.target(of.value)
}

/// A value as operators and conversions see it.
pub fn operand_of(types: &Types, of: Valued) -> Operand
    requires { IsValued types.now of }
    ensures operand { typed_operand types.now result ≡ meaning.operand_of (valued_seen types.now of) }
    ensures known { IsTypeId types.now result.of }
{
    Operand {
        of: of.value,
        fouled: of.fact.node.value.fouled,
        zero: is_plain_integer(types, of.value) && is_zero_number(number_of(types, of.fact)),
    }
}

/// A void value is used, which stands at its own token (C11 6.3.2.2).
pub fn void_used(types: &Types, token: u32, of: Valued) -> Option<Broken>
    requires { IsValued types.now of }
    ensures { option_map broken_seen result ≡ least_broken (void_used token (valued_seen types.now of)) }
{
    if is_void_value(types, of) {
        broken_at(ErrorKind::VoidValueUsed, token)
    } else {
        None
    }
}
