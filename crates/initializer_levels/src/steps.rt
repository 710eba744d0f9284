// What a designator names in an object (C11 6.7.9 p6, p7).
ghost use Rattle.std.specs.Prelude.{◌≡◌, ◌<◌, ◌^◌, IsTrue, option_map};
ghost use Rattle.meaning_initializers.specs.Items.{ElementAt, MemberNamed};
ghost use Rattle.meaning_initializers.specs.Designators.{is_index, step_of};
ghost use Rattle.meaning_initializers.specs.Parts.{Aggregates};
ghost use Rattle.meaning_typing.specs.Facts.{Fact};
ghost use Rattle.c_types.specs.Members.{found_seen};
ghost use Rattle.c_types.specs.Table.{IsTypeId, types_in};
ghost use Rattle.node_facts.specs.Facts.{name_seen};
ghost use Rattle.initializer_levels.specs.Parts.{IsKnownParts, parts_in, parts_seen, type_seen};
ghost use Rattle.initializer_levels.specs.Steps.{AreKnownIn, IsKnownStep, found_by, index_kept, index_of, magnitude_kept, member_in_body, member_step, named_by, number_kept, step_by_index, step_by_name, step_seen};

use crate::parts::{Part, PartType, Parts};
use c_types::{FoundMember, Member, Types};
use sparse_model::{NameId, TypeId};

/// What a designator names in an object.
#[derive(Clone, Copy, Debug, PartialEq, Eq)]
pub enum Step {
    ToPart(Part),
    /// A member without a name, in which the name is sought (C11 6.7.2.1 p13).
    Into(Part),
    NoPart,
    /// Nothing is known of the index.
    Unknown,
}

/// What is known of an index.
#[derive(Clone, Copy, Debug, PartialEq, Eq)]
pub enum Index {
    Unknown,
    /// Its number, if it is a constant.
    Known(Option<i128>),
}

/// An array without a length takes an index below 2^40, the bytes of the largest object.
const MOST_ELEMENTS: u128 = 1 << 40;

// A member that is found, or one of its own members.
fn member_step(place: u32, member: &Member) -> Step
    ensures { result ≡ member_step place member.now }
{
    let part = Part {
        number: u64::from(place),
        of: PartType {
            of: member.of,
            is_member: true,
        },
    };
    if member.name.is_some() {
        Step::ToPart(part)
    } else {
        Step::Into(part)
    }
}

// Among these members.
fn member_among(members: &[Member], place: u32) -> Step
    ensures { result ≡ member_in_body members.now place }
{
    match members.get(place as usize) {
        None => Step::NoPart,
        Some(member) => member_step(place, member),
    }
}

// Among the members of an aggregate, if they were told.
#[tactic(auto, using(crate::proofs::StepLemmas::place_seen, crate::proofs::StepLemmas::place_known))]
fn step_to_place(types: &Types, aggregate: u32, place: u32) -> Step
    ensures step { step_seen types.now result ≡ named_by types.now aggregate place }
    ensures known { IsKnownStep types.now result }
{
    match types.body(aggregate) {
        None => Step::NoPart,
        Some(body) => member_among(body.members.as_slice(), place),
    }
}

// To what a name was found to name.
fn step_to_found(types: &Types, aggregate: u32, found: Option<FoundMember>) -> Step
    ensures step { step_seen types.now result ≡ found_by types.now aggregate (option_map (found_seen (types_in types.now)) found) }
    ensures known { IsKnownStep types.now result }
{
    match found {
        None => Step::NoPart,
        Some(found) => step_to_place(types, aggregate, found.place),
    }
}

// By what the object has for parts.
fn member_by(types: &Types, parts: Parts, name: NameId) -> Step
    ensures step { step_seen types.now result ≡ step_by_name types.now (parts_seen types.now parts) name }
    ensures known { IsKnownStep types.now result }
{
    match parts {
        Parts::Members(aggregate, _) => {
            step_to_found(types, aggregate, types.member(aggregate, name))
        }
        Parts::Elements(_, _) => Step::NoPart,
        Parts::Itself => Step::NoPart,
    }
}

/// What a name names in an object, by what it has for parts. It takes no memory, and a few steps.
#[tactic(auto, using(crate::proofs::StepLemmas::named_is))]
pub fn step_to_member(types: &Types, parts: Parts, of: PartType, name: NameId) -> Step
    requires object { IsTypeId types.now of.of }
    requires parts { parts_seen types.now parts ≡ parts_in (type_seen types.now of) }
    ensures step { (aggregates : Aggregates) → AreKnownIn types.now aggregates → step_seen types.now result ≡ step_of aggregates (type_seen types.now of) (MemberNamed (name_seen name)) }
    ensures known { IsKnownStep types.now result }
{
    member_by(types, parts, name)
}

// An array without a length takes an index below 2^40.
fn is_index(index: u128, count: Option<u64>) -> bool
    ensures is { result ≡ is_index index count }
    ensures small { IsTrue result → index < 2 ^ 64 }
{
    match count {
        None => index < MOST_ELEMENTS,
        Some(count) => index < u128::from(count),
    }
}

fn magnitude_step(element: TypeId, count: Option<u64>, index: u128) -> Step
    ensures { result ≡ magnitude_kept element count index }
{
    if !is_index(index, count) {
        return Step::NoPart;
    }
    Step::ToPart(Part {
        number: index as u64,
        of: PartType {
            of: element,
            is_member: false,
        },
    })
}

// An index isn't below 0.
fn number_step(element: TypeId, count: Option<u64>, number: i128) -> Step
    ensures { result ≡ number_kept element count number }
{
    if number < 0 {
        return Step::NoPart;
    }
    magnitude_step(element, count, number.unsigned_abs())
}

// By what is known of the index.
fn index_step(element: TypeId, count: Option<u64>, index: Index) -> Step
    ensures { result ≡ index_kept element count index }
{
    match index {
        Index::Unknown => Step::Unknown,
        Index::Known(None) => Step::NoPart,
        Index::Known(Some(number)) => number_step(element, count, number),
    }
}

// By what the object has for parts.
#[tactic(auto, using(crate::proofs::StepLemmas::index_seen, crate::proofs::StepLemmas::index_known))]
fn element_by(types: &Types, parts: Parts, index: Index) -> Step
    requires { IsKnownParts types.now parts }
    ensures step { step_seen types.now result ≡ step_by_index (parts_seen types.now parts) index }
    ensures known { IsKnownStep types.now result }
{
    let _types = types;
    match parts {
        Parts::Elements(element, count) => index_step(element, count, index),
        Parts::Members(_, _) => Step::NoPart,
        Parts::Itself => Step::NoPart,
    }
}

/// What an index names in an object, by what it has for parts and by what is known of the index. It takes no memory, and a few
/// steps.
#[tactic(auto, using(crate::proofs::StepLemmas::element_is))]
pub fn step_to_element(types: &Types, parts: Parts, of: PartType, index: Index) -> Step
    requires object { IsTypeId types.now of.of }
    requires parts { parts_seen types.now parts ≡ parts_in (type_seen types.now of) }
    requires element { IsKnownParts types.now parts }
    ensures step { (aggregates : Aggregates) (fact : Fact) → index_of fact ≡ index → step_seen types.now result ≡ step_of aggregates (type_seen types.now of) (ElementAt fact) }
    ensures known { IsKnownStep types.now result }
{
    element_by(types, parts, index)
}
