// What is known of a node and of its parts, and the constant that comes of it.
ghost use Rattle.std.specs.Prelude.{◌≡◌, ◌∷◌, [], option_map};
ghost use Rattle.meaning_constants.specs.Constants as meaning;
ghost use Rattle.meaning_constants.specs.Nodes.{folded, node_constant, of_arms, of_one, of_two};
ghost use Rattle.const_fold.specs.Seen.{seen_constant, facts_seen, one_in, seen_part, pair_seen, parts_seen, two_in, way_seen};
ghost use Rattle.const_fold.specs.Measured.{measured};

use crate::constant::{
    Constant, and_constant, binary_constant, cast_constant, conditional_constant, literal_constant,
    or_constant, own_constant, size_constant, unary_constant,
};
use crate::part::Part;
use crate::way::{Way, way_of};
use sparse_model::NodeKind;
use vocabulary::Operator;

/// What is known of the parts of a node, each where it has a type. Of a node with more than three parts nothing is
/// asked.
#[derive(Clone, Copy)]
pub enum Parts {
    One(Option<Part>),
    Two(Option<Part>, Option<Part>),
    Three(Option<Part>, Option<Part>, Option<Part>),
    Other,
}

/// What is known of a node.
#[derive(Clone, Copy)]
pub struct NodeFacts {
    pub kind: NodeKind,
    pub number: u64,
    pub parts: Parts,
    /// Of a name, the enumerator that it names.
    pub enumerator: Option<Part>,
    /// The bytes that it asks for: a size, an alignment or an offset.
    pub bytes: Option<u64>,
}

impl Parts {
    // The only part, if it is known.
    fn one(self) -> Option<Part>
        ensures { option_map seen_part result ≡ one_in (parts_seen self) }
    {
        match self {
            Parts::One(part) => part,
            Parts::Two(_, _) => None,
            Parts::Three(_, _, _) => None,
            Parts::Other => None,
        }
    }

    // Both parts, if they are known.
    fn two(self) -> Option<(Part, Part)>
        ensures { option_map pair_seen result ≡ two_in (parts_seen self) }
    {
        match self {
            Parts::One(_) => None,
            Parts::Two(first, second) => both(first, second),
            Parts::Three(_, _, _) => None,
            Parts::Other => None,
        }
    }
}

fn both(first: Option<Part>, second: Option<Part>) -> Option<(Part, Part)>
    ensures { option_map pair_seen result ≡ two_in (option_map seen_part first ∷ option_map seen_part second ∷ []) }
{
    match (first, second) {
        (Some(left), Some(right)) => Some((left, right)),
        (Some(_), None) => None,
        (None, _) => None,
    }
}

#[tactic(auto, using(crate::proofs::WayLemmas::of_one_told))]
fn own_of(parts: Parts) -> Option<Constant>
    ensures { option_map seen_constant result ≡ of_one meaning.own_constant (parts_seen parts) }
{
    own_constant(parts.one()?)
}

fn enumerator_of(part: Option<Part>) -> Option<Constant>
    ensures { option_map seen_constant result ≡ of_one meaning.own_constant (option_map seen_part part ∷ []) }
{
    own_constant(part?)
}

#[tactic(auto, using(crate::proofs::WayLemmas::of_one_told))]
fn unary_of(op: Operator, parts: Parts) -> Option<Constant>
    ensures { option_map seen_constant result ≡ of_one (meaning.unary_constant op) (parts_seen parts) }
{
    unary_constant(op, parts.one()?)
}

#[tactic(auto, using(crate::proofs::WayLemmas::of_two_told))]
fn binary_of(op: Operator, parts: Parts) -> Option<Constant>
    ensures { option_map seen_constant result ≡ of_two (meaning.binary_constant op) (parts_seen parts) }
{
    let (left, right) = parts.two()?;
    binary_constant(op, left, right)
}

#[tactic(auto, using(crate::proofs::WayLemmas::of_two_told))]
fn and_of(parts: Parts) -> Option<Constant>
    ensures { option_map seen_constant result ≡ of_two meaning.and_constant (parts_seen parts) }
{
    let (left, right) = parts.two()?;
    and_constant(left, right)
}

#[tactic(auto, using(crate::proofs::WayLemmas::of_two_told))]
fn or_of(parts: Parts) -> Option<Constant>
    ensures { option_map seen_constant result ≡ of_two meaning.or_constant (parts_seen parts) }
{
    let (left, right) = parts.two()?;
    or_constant(left, right)
}

// A type name, and an operand.
#[tactic(auto, using(crate::proofs::WayLemmas::of_two_told))]
fn cast_of(parts: Parts) -> Option<Constant>
    ensures { option_map seen_constant result ≡ of_two (λ name operand. meaning.cast_constant name.of operand) (parts_seen parts) }
{
    let (name, operand) = parts.two()?;
    cast_constant(name.of, operand)
}

// Without its middle operand, `?:` takes the first one for it.
fn arms_of(parts: Parts) -> Option<Constant>
    ensures { option_map seen_constant result ≡ of_arms (parts_seen parts) }
{
    match parts {
        Parts::One(_) => None,
        Parts::Two(first, third) => conditional_of(first, first, third),
        Parts::Three(first, second, third) => conditional_of(first, second, third),
        Parts::Other => None,
    }
}

fn conditional_of(
    first: Option<Part>,
    second: Option<Part>,
    third: Option<Part>,
) -> Option<Constant>
    ensures { option_map seen_constant result ≡ of_arms (option_map seen_part first ∷ option_map seen_part second ∷ option_map seen_part third ∷ []) }
{
    let condition = first?;
    let left = second?;
    let right = third?;
    conditional_constant(condition, left, right)
}

// The bytes are those of the only part.
#[tactic(auto, using(crate::proofs::WayLemmas::of_one_told))]
fn size_of(parts: Parts, bytes: Option<u64>) -> Option<Constant>
    ensures { option_map seen_constant result ≡ of_one (λ part. meaning.size_constant bytes) (parts_seen parts) }
{
    let _part = parts.one()?;
    size_constant(bytes)
}

// The constant that comes so.
fn folded(way: Way, facts: NodeFacts) -> Option<Constant>
    ensures { option_map seen_constant result ≡ folded (measured facts.bytes) (way_seen way) (facts_seen facts) }
{
    match way {
        Way::Nothing => None,
        Way::Literal(kind) => Some(literal_constant(kind, facts.number)),
        Way::Named => enumerator_of(facts.enumerator),
        Way::Own => own_of(facts.parts),
        Way::Unary(op) => unary_of(op, facts.parts),
        Way::Binary(op) => binary_of(op, facts.parts),
        Way::And => and_of(facts.parts),
        Way::Or => or_of(facts.parts),
        Way::Conditional => arms_of(facts.parts),
        Way::Cast => cast_of(facts.parts),
        Way::Size => size_of(facts.parts, facts.bytes),
        Way::Align => size_of(facts.parts, facts.bytes),
        Way::Offset => size_constant(facts.bytes),
    }
}

/// The constant of a node, by what is known of it.
pub fn constant_of(facts: NodeFacts) -> Option<Constant>
    ensures { option_map seen_constant result ≡ node_constant (measured facts.bytes) (facts_seen facts) }
{
    folded(way_of(facts.kind), facts)
}
