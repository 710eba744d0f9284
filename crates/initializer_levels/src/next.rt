// The next part of an object from a number on, in the order in which parts are filled (C11 6.7.9 p17).
ghost use Rattle.std.specs.Prelude.{◌≡◌, ◌<◌, ◌+◌, ◌^◌, IfSome, length, option_map};
ghost use Rattle.meaning_initializers.specs.Parts.{Aggregates, is_within, member_from, part_from};
ghost use Rattle.c_types.specs.Table.{IsTypeId};
ghost use Rattle.initializer_levels.specs.Parts.{AreMembersIn, IsKnownPart, IsKnownParts, element_at, first_among, first_of_members, from_parts, is_member_passed_over, member_type, members_in, own_part, part_seen, parts_in, parts_seen, type_seen};

use crate::parts::{Part, PartType, Parts};
use c_types::{Member, Types};
use sparse_model::TypeId;

// A bit-field without a name is no part of what is initialized (C11 6.7.9 p9).
fn is_passed_over(member: &Member) -> bool
    ensures { result ≡ is_member_passed_over member.now }
{
    member.width.is_some() && member.name.is_none()
}

// The type with which a member is declared.
fn member_type(member: &Member) -> PartType
    ensures { result ≡ member_type member.now }
{
    PartType {
        of: member.of,
        is_member: true,
    }
}

// The first part among these members, which are those from this number on.
fn first_member(number: u64, members: &[Member]) -> Option<Part>
    requires { number + length members.now < 2 ^ 64 }
    ensures { result ≡ first_of_members number members.now }
{
    let mut at = number;
    let mut rest = members;
    'members: while let Some((member, others)) = rest.split_first() {
        if !is_passed_over(member) {
            return Some(Part {
                number: at,
                of: member_type(member),
            });
        }
        at += 1;
        rest = others;
    }
    None
}

// Of a union the first one alone.
fn first_among(members: &[Member], is_union: bool, number: u64) -> Option<Part>
    ensures { result ≡ first_among members.now is_union number }
{
    if is_union && number > 0 || number > members.len() as u64 {
        return None;
    }
    first_member(number, &members[number as usize..])
}

// Among the members of an aggregate, if they were told.
#[tactic(auto, using(crate::proofs::NextLemmas::among_seen, crate::proofs::NextLemmas::none_among, crate::proofs::NextLemmas::among_known))]
fn first_in_body(types: &Types, aggregate: u32, is_union: bool, number: u64) -> Option<Part>
    ensures next { option_map (part_seen types.now) result ≡ member_from (members_in types.now aggregate) is_union number }
    ensures known { IfSome result (IsKnownPart types.now) }
{
    match types.body(aggregate) {
        None => None,
        Some(body) => first_among(body.members.as_slice(), is_union, number),
    }
}

// An array without a length has an element at each index.
fn is_within(number: u64, count: Option<u64>) -> bool
    ensures { result ≡ is_within number count }
{
    match count {
        None => true,
        Some(count) => number < count,
    }
}

// By what the object has for parts.
fn next_by(types: &Types, parts: Parts, of: PartType, number: u64) -> Option<Part>
    requires object { IsTypeId types.now of.of }
    requires element { IsKnownParts types.now parts }
    ensures next { option_map (part_seen types.now) result ≡ from_parts (members_in types.now) (parts_seen types.now parts) (type_seen types.now of) number }
    ensures known { IfSome result (IsKnownPart types.now) }
{
    match parts {
        Parts::Elements(element, count) => element_at(element, count, number),
        Parts::Members(aggregate, is_union) => first_in_body(types, aggregate, is_union, number),
        Parts::Itself => own_part(of, number),
    }
}

fn element_at(element: TypeId, count: Option<u64>, number: u64) -> Option<Part>
    ensures { result ≡ element_at element count number }
{
    if is_within(number, count) {
        Some(Part {
            number,
            of: PartType {
                of: element,
                is_member: false,
            },
        })
    } else {
        None
    }
}

// In braces a scalar is its own only part.
fn own_part(of: PartType, number: u64) -> Option<Part>
    ensures { result ≡ own_part of number }
{
    if number == 0 {
        Some(Part { number: 0, of })
    } else {
        None
    }
}

/// The next part of an object from a number on, by what it has for parts. It takes no memory, and a step for each bit-field without
/// a name that is passed over.
#[tactic(auto, using(crate::proofs::NextLemmas::next_is))]
pub fn next_part(types: &Types, parts: Parts, of: PartType, number: u64) -> Option<Part>
    requires object { IsTypeId types.now of.of }
    requires parts { parts_seen types.now parts ≡ parts_in (type_seen types.now of) }
    requires element { IsKnownParts types.now parts }
    ensures next { (aggregates : Aggregates) → AreMembersIn types.now aggregates → option_map (part_seen types.now) result ≡ part_from aggregates (type_seen types.now of) number }
    ensures known { IfSome result (IsKnownPart types.now) }
{
    next_by(types, parts, of, number)
}
