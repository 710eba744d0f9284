// Whether an object takes an initializer whole (C11 6.7.9 p11, p13, p14, p20).
ghost use Rattle.std.specs.Prelude.{◌≡◌, IsTrue};
ghost use Rattle.meaning_types.specs.Types.{TypeTree};
ghost use Rattle.meaning_initializers.specs.Parts.{is_array_of_characters, is_character, is_value_of};
ghost use Rattle.c_types.specs.Table.{IsTypeId};
ghost use Rattle.node_facts.specs.Facts.{IsKnownNodeFact, node_seen};
ghost use Rattle.initializer_levels.specs.Parts.{IsKnownParts, parts_in, parts_seen};
ghost use Rattle.initializer_levels.specs.Takes.{are_characters, is_character_outline, is_one_of, value_by};

use crate::parts::Parts;
use c_types::{Outline, Types};
use node_facts::NodeFact;
use sparse_model::IntKind;

fn is_character(kind: IntKind) -> bool
    ensures { result ≡ is_character kind }
{
    match kind {
        IntKind::Char => true,
        IntKind::SChar => true,
        IntKind::UChar => true,
        _ => false,
    }
}

fn is_character_outline(outline: Outline) -> bool
    ensures { result ≡ is_character_outline outline }
{
    match outline {
        Outline::Integer(kind) => is_character(kind),
        _ => false,
    }
}

/// Whether an object is an array of characters, which a string gives its elements. It takes no memory, and a few steps.
#[tactic(auto, using(crate::proofs::TakeLemmas::characters_are))]
pub fn are_characters(types: &Types, parts: Parts) -> bool
    requires { IsKnownParts types.now parts }
    ensures { (type_ : TypeTree) → parts_seen types.now parts ≡ parts_in type_ → result ≡ is_array_of_characters type_ }
{
    characters_by(types, parts)
}

fn characters_by(types: &Types, parts: Parts) -> bool
    requires { IsKnownParts types.now parts }
    ensures { result ≡ are_characters (parts_seen types.now parts) }
{
    match parts {
        Parts::Elements(element, _) => is_character_outline(types.outline(element)),
        Parts::Members(_, _) => false,
        Parts::Itself => false,
    }
}

// The same aggregate.
fn is_one_of(parts: Parts, outline: Outline) -> bool
    ensures { result ≡ is_one_of parts outline }
{
    match (parts, outline) {
        (Parts::Members(number, is_union), Outline::Aggregate(other, is_other_union)) => {
            number == other && is_union == is_other_union
        }
        _ => false,
    }
}

fn value_by(types: &Types, parts: Parts, fact: NodeFact) -> bool
    requires { IsKnownNodeFact types.now fact }
    ensures { result ≡ value_by types.now parts fact }
{
    match fact {
        NodeFact::Expression(expression) => is_one_of(parts, types.outline(expression.node.of)),
        _ => false,
    }
}

/// Whether an expression has the type of an aggregate, and so gives all members theirs. It takes no memory, and a few steps.
#[tactic(auto, using(crate::proofs::TakeLemmas::values_are))]
pub fn is_value(types: &Types, parts: Parts, fact: NodeFact) -> bool
    requires { IsKnownNodeFact types.now fact }
    ensures { (type_ : TypeTree) → parts_seen types.now parts ≡ parts_in type_ → result ≡ is_value_of type_ (node_seen types.now fact) }
{
    value_by(types, parts, fact)
}
