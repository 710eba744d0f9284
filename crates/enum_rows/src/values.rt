// Enumerators by themselves (C11 6.7.2.2 p2, p3): the type and the number of each. How they stand among others isn't known here.
ghost use Rattle.std.specs.Prelude.{◌≡◌, IfSome, option_map, pos};
ghost use Rattle.meaning_typing.specs.EnumRows.{has_no_next, value_in};
ghost use Rattle.meaning_typing.specs.Facts.{Expression, type_of_value};
ghost use Rattle.node_facts.specs.Facts.{IsKnownFact, IsKnownNodeFact, fact_seen, node_seen};
ghost use Rattle.enum_rows.specs.Integers.{integer_in};
ghost use Rattle.enum_rows.specs.Values.{IsKept, counted, kind_settled, next, settled, type_settled, value_by, value_seen};

use crate::integers::{IntegerType, Span};
use crate::types::{integer_of_type, integer_of_value};
use c_types::Types;
use expression_rows::number_of;
use node_facts::{ExpressionFact, NodeFact, converted};
use sparse_model::{IntKind, Restrict};

/// An enumerator by itself.
#[derive(Clone, Copy)]
pub struct EnumeratorValue {
    pub of: IntegerType,
    pub number: i128,
}

fn value_by(of: Option<IntegerType>, number: Option<i128>) -> Option<EnumeratorValue>
    ensures { result ≡ value_by of number }
{
    match (of, number) {
        (Some(of), Some(number)) => Some(EnumeratorValue { of, number }),
        _ => None,
    }
}

/// An expression as an enumerator has it before it is settled: it is a constant of an integer type.
pub fn value_of_expression(types: &Types, fact: ExpressionFact) -> Option<EnumeratorValue>
    requires { IsKnownFact types.now fact }
    ensures { result ≡ value_by (integer_in (type_of_value (fact_seen types.now fact))) (fact_seen types.now fact).constant }
{
    value_by(integer_of_value(types, fact), number_of(types, fact))
}

// What is known of an expression as an enumerator.
fn value_of_constant(types: &Types, fact: ExpressionFact) -> Option<EnumeratorValue>
    requires { IsKnownFact types.now fact }
    ensures { option_map value_seen result ≡ value_in (Expression (fact_seen types.now fact)) }
{
    value_by(integer_of_type(types, fact), number_of(types, fact))
}

/// What is known of an enumerator.
pub fn value_in(types: &Types, fact: NodeFact) -> Option<EnumeratorValue>
    requires { IsKnownNodeFact types.now fact }
    ensures { option_map value_seen result ≡ value_in (node_seen types.now fact) }
{
    match fact {
        NodeFact::Expression(expression) => value_of_constant(types, expression),
        _ => None,
    }
}

// An int where int has the number.
fn kind_settled(kind: IntKind, number: i128) -> IntKind
    ensures { result ≡ kind_settled kind number }
{
    if Span::only(number).is_int() {
        IntKind::Int
    } else {
        kind
    }
}

// A restricted one keeps its kind.
fn type_settled(identity: Option<Restrict>, kind: IntKind, number: i128) -> IntegerType
    ensures { result ≡ type_settled identity kind number }
{
    match identity {
        None => IntegerType::plain(kind_settled(kind, number)),
        Some(identity) => IntegerType {
            kind,
            identity: Some(identity),
        },
    }
}

// One with this number and no expression, if a type has it.
fn counted(number: i128) -> Option<EnumeratorValue>
    ensures counted { result ≡ counted number }
    ensures kept { IfSome result IsKept }
{
    let kind = Span::only(number).first_kind()?;
    Some(EnumeratorValue {
        of: IntegerType::plain(kind),
        number,
    })
}

/// The first enumerator, where it has no expression.
pub fn first_counted() -> Option<EnumeratorValue>
    ensures counted { result ≡ counted (pos 0) }
    ensures kept { IfSome result IsKept }
{
    counted(0)
}

impl EnumeratorValue {
    /// An enumerator whose expression has this type and this number: a fouled number is converted first.
    pub fn settled(self) -> EnumeratorValue
        ensures settled { result ≡ settled self }
        ensures kept { IsKept result }
    {
        let IntegerType { kind, identity } = self.of;
        let number = converted(kind, self.number);
        EnumeratorValue {
            of: type_settled(identity, kind, number),
            number,
        }
    }

    /// The one behind it, where that has no expression: 1 more, if a type has the number.
    pub fn next(self) -> Option<EnumeratorValue>
        ensures next { result ≡ next self }
        ensures kept { IfSome result IsKept }
    {
        match self.number.checked_add(1) {
            Some(number) => counted(number),
            // No type has a number of more than 64 bits.
            None => None,
        }
    }
}

/// Whether no type has the number that comes behind this one.
pub fn has_no_next(before: Option<EnumeratorValue>) -> bool
    ensures { result ≡ has_no_next (option_map value_seen before) }
{
    match before {
        None => false,
        Some(before) => before.next().is_none(),
    }
}
