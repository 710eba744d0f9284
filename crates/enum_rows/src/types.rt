// Integers of the table of types: what a fact says of one, and how one is made.
ghost use Rattle.std.specs.Prelude.{◌≡◌, IfOk, OnOk};
ghost use Rattle.meaning_constants.specs.Bits.{bits_of_number};
ghost use Rattle.meaning_typing.specs.Facts.{Expression, type_of_value};
ghost use Rattle.meaning_typing.specs.EnumRows.{constant_value};
ghost use Rattle.c_types.specs.Table.{IsTypeId, type_at};
ghost use Rattle.node_facts.specs.Facts.{IsKnownFact, IsKnownNodeFact, fact_seen, node_seen};
ghost use Rattle.node_facts.specs.Growing.{TypesJoin};
ghost use Rattle.enum_rows.specs.Integers.{integer_in, type_of_integer};
ghost use Rattle.enum_rows.specs.Values.{IsKept};

use crate::integers::IntegerType;
use crate::values::EnumeratorValue;
use c_types::{NodeType, NodeValue, ShapeBase, TypeShape, Types};
use node_facts::{ExpressionFact, ExpressionMarks, NodeFact};
use sparse_model::{Space, TypeId};
use std::alloc::AllocError;

/// The integer type of the value of an expression, if it has one.
#[tactic(auto, using(crate::proofs::IntegerLemmas::value_told))]
pub fn integer_of_value(types: &Types, fact: ExpressionFact) -> Option<IntegerType>
    requires { IsKnownFact types.now fact }
    ensures { result ≡ integer_in (type_of_value (fact_seen types.now fact)) }
{
    IntegerType::loaded(fact.node.value.width, types.outline(fact.node.of))
}

/// The integer type of an expression, if it has one.
#[tactic(auto, using(crate::proofs::IntegerLemmas::type_told))]
pub fn integer_of_type(types: &Types, fact: ExpressionFact) -> Option<IntegerType>
    requires { IsKnownFact types.now fact }
    ensures { result ≡ integer_in (type_at types.now fact.node.of) }
{
    IntegerType::loaded(None, types.outline(fact.node.of))
}

/// The type itself.
pub fn make_integer(types: &mut Types, of: IntegerType) -> Result<TypeId, AllocError>
    ensures made { IfOk result (λ id. type_at types.new id ≡ type_of_integer of) }
    ensures known { IfOk result (IsTypeId types.new) }
    ensures keeps { OnOk result (TypesJoin types.old types.new) }
{
    let id = types.make(TypeShape {
        base: ShapeBase::Integer(of.kind, of.identity),
        is_const: false,
        is_volatile: false,
        noderef: false,
        space: Space::None,
    })?;
    Ok(id)
}

fn bits_of_number(number: i128) -> u64
    ensures { result ≡ bits_of_number number }
{
    number.rem_euclid(18446744073709551616) as u64
}

/// A constant of an integer type, whose number 64 bits tell.
pub fn make_constant(types: &mut Types, value: EnumeratorValue) -> Result<NodeFact, AllocError>
    requires { IsKept value }
    ensures fact { IfOk result (λ fact. node_seen types.new fact ≡ constant_value (type_of_integer value.of) value.number) }
    ensures known { IfOk result (IsKnownNodeFact types.new) }
    ensures keeps { OnOk result (TypesJoin types.old types.new) }
{
    let of = make_integer(types, value.of)?;
    let value = NodeValue {
        fouled: false,
        width: None,
        constant: Some(bits_of_number(value.number)),
    };
    Ok(NodeFact::Expression(ExpressionFact {
        node: NodeType { of, value },
        marks: ExpressionMarks::none(),
    }))
}
