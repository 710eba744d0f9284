// The parts of a declarator (C11 6.7.6), from the specified type outwards: nodes and what is known of them in, the type that they
// make, the least that they break and the least array that is too large out. Where the declarator stands isn't known here.
ghost use Rattle.std.specs.Prelude.{◌≡◌, All, IfOk, IfSome, List, OnOk, Some, option_map};
ghost use Rattle.meaning_operands.specs.Failures as failures;
ghost use Rattle.meaning_rules.specs.Rules.{least_broken, least_token};
ghost use Rattle.meaning_typing.specs.DeclarationRows as meaning;
ghost use Rattle.meaning_typing.specs.Declarators as declarators;
ghost use Rattle.meaning_typing.specs.Units.{kind_at as kind_of};
ghost use Rattle.c_types.specs.Layouts.{told_in};
ghost use Rattle.c_types.specs.Table.{IsTypeId, TypeTable, type_at};
ghost use Rattle.decl_judge.specs.Units.{handles_of, nodes_of};
ghost use Rattle.expression_rows.specs.Rows.{broken_seen};
ghost use Rattle.node_facts.specs.Facts.{IsKnownNodeFact, nodes_seen};
ghost use Rattle.node_facts.specs.Growing.{TypesJoin};
ghost use Rattle.declaration_rows.specs.Parts.{is_bad_outline, is_large_fault, large_at};

use crate::bitwise::bitwise_broken;
use crate::complete::is_no_object;
use crate::tokens::lowest;
use c_tree::{Handle, Unit};
use c_types::{Extent, LayoutFault, Outline, Types};
use decl_judge::{derived, kind_at, token_at};
use expression_rows::{Broken, broken_at, lesser};
use node_facts::NodeFacts;
use sparse_model::{ErrorKind, NodeKind, TypeId};
use std::alloc::{AllocError, Global};
use tag_list::TagList;

/// What is found of the parts of a declarator.
#[derive(Clone, Copy, Debug, PartialEq, Eq)]
pub struct JudgedParts {
    /// The type that they make, if each makes one and none breaks something.
    pub made: Option<TypeId>,
    /// The least constraint that they break.
    pub broken: Option<Broken>,
    /// The least token at which an array is larger than an object may be.
    pub passed: Option<u32>,
}

/// What an array breaks at its token whose elements have this type: they have a size (6.2.5 p20).
pub fn element_type_broken(types: &Types, token: u32, of: TypeId) -> Option<Broken>
    requires { IsTypeId types.now of }
    ensures { option_map broken_seen result ≡ least_broken (meaning.element_type_broken (told_in types.now) token (type_at types.now of)) }
{
    if is_no_object(types, of) {
        broken_at(ErrorKind::BadElementType, token)
    } else {
        None
    }
}

fn is_bad_outline(outline: Outline) -> bool
    ensures { result ≡ is_bad_outline outline }
{
    match outline {
        Outline::Array => true,
        Outline::Function => true,
        _ => false,
    }
}

#[tactic(auto, using(crate::proofs::TypeLemmas::bad_result_told))]
fn is_bad_result(types: &Types, of: TypeId) -> bool
    requires { IsTypeId types.now of }
    ensures { result ≡ meaning.is_bad_result (type_at types.now of) }
{
    is_bad_outline(types.outline(of))
}

/// What a function breaks at its token whose result has this type: it is neither an array nor a function (6.7.6.3 p1).
pub fn result_type_broken(types: &Types, token: u32, of: TypeId) -> Option<Broken>
    requires { IsTypeId types.now of }
    ensures { option_map broken_seen result ≡ least_broken (meaning.result_type_broken token (type_at types.now of)) }
{
    if is_bad_result(types, of) {
        broken_at(ErrorKind::BadResultType, token)
    } else {
        None
    }
}

/// The least that a part breaks which makes another type of this one. It takes a step for each attribute in it.
pub fn part_broken(
    unit: &Unit,
    types: &Types,
    part: Handle,
    of: TypeId,
    made: TypeId,
) -> Option<Broken>
    requires whole { unit.now.first ≡ 0 }
    requires of { IsTypeId types.now of }
    requires made { IsTypeId types.now made }
    ensures { option_map broken_seen result ≡ least_broken (meaning.part_broken (told_in types.now) (nodes_of unit.now) part (kind_of (nodes_of unit.now) part) (type_at types.now of) (type_at types.now made)) }
{
    match kind_at(unit, part) {
        NodeKind::PointerDeclarator => bitwise_broken(unit, types, part, made),
        NodeKind::ArrayDeclarator => element_type_broken(types, token_at(unit, part), of),
        NodeKind::FunctionDeclarator => result_type_broken(types, token_at(unit, part), of),
        NodeKind::ParenthesizedAttributes => bitwise_broken(unit, types, part, of),
        _ => None,
    }
}

// Where a part makes no type, an array without its length or a function without its parameters stands in its place.
fn part_broken_by(
    unit: &Unit,
    types: &Types,
    part: Handle,
    of: TypeId,
    made: Option<TypeId>,
) -> Option<Broken>
    requires whole { unit.now.first ≡ 0 }
    requires of { IsTypeId types.now of }
    requires made { IfSome made (IsTypeId types.now) }
    ensures { option_map broken_seen result ≡ least_broken (meaning.part_broken (told_in types.now) (nodes_of unit.now) part (kind_of (nodes_of unit.now) part) (type_at types.now of) (meaning.made_or (type_at types.now of) (option_map (type_at types.now) made))) }
{
    match made {
        Some(made) => part_broken(unit, types, part, of, made),
        None => part_broken(unit, types, part, of, of),
    }
}

// Behind what is broken there is no type.
fn type_unless(broken: Option<Broken>, made: Option<TypeId>) -> Option<TypeId>
    ensures made { (table : TypeTable) (list : List failures.Broken) → option_map broken_seen broken ≡ least_broken list → option_map (type_at table) result ≡ meaning.type_unless list (option_map (type_at table) made) }
    ensures known { (table : TypeTable) → IfSome made (IsTypeId table) → IfSome result (IsTypeId table) }
{
    match broken {
        None => made,
        Some(_broken) => None,
    }
}

fn is_array_part(kind: NodeKind) -> bool
    ensures { result ≡ declarators.is_array_part kind }
{
    match kind {
        NodeKind::ArrayDeclarator => true,
        _ => false,
    }
}

// Whether a size is missing since it would be too large.
fn is_large_fault(extent: Result<Extent, LayoutFault>) -> bool
    ensures { result ≡ is_large_fault extent }
{
    match extent {
        Ok(_) => false,
        Err(LayoutFault::Incomplete) => false,
        Err(LayoutFault::TooLarge) => true,
    }
}

#[tactic(auto, using(crate::proofs::TypeLemmas::large_told))]
fn is_large_type(types: &Types, made: Option<TypeId>) -> bool
    requires { IfSome made (IsTypeId types.now) }
    ensures { result ≡ meaning.is_large_type (told_in types.now) (option_map (type_at types.now) made) }
{
    match made {
        None => false,
        Some(of) => is_large_fault(types.extent(of)),
    }
}

// The token of a part that made this type, if that is an array that is larger than an object may be.
fn large_part(unit: &Unit, types: &Types, part: Handle, made: Option<TypeId>) -> Option<u32>
    requires whole { unit.now.first ≡ 0 }
    requires made { IfSome made (IsTypeId types.now) }
    ensures { result ≡ least_token (large_at (told_in types.now) (nodes_of unit.now) part (option_map (type_at types.now) made)) }
{
    if is_array_part(kind_at(unit, part)) && is_large_type(types, made) {
        Some(token_at(unit, part))
    } else {
        None
    }
}

// What is found of one part behind this type.
fn judge_part(
    alloc: Global,
    unit: &Unit,
    facts: &NodeFacts,
    types: &mut Types,
    token: u32,
    part: Handle,
    of: TypeId,
) -> Result<JudgedParts, AllocError>
    requires whole { unit.now.first ≡ 0 }
    requires facts { All (IsKnownNodeFact types.old) facts.now }
    requires of { IsTypeId types.old of }
    ensures made { IfOk result (λ judged. option_map (type_at types.new) judged.made ≡ meaning.made_by_part (told_in types.old) (nodes_of unit.now) (nodes_seen types.old facts.now) token part (type_at types.old of)) }
    ensures known { IfOk result (λ judged. IfSome judged.made (IsTypeId types.new)) }
    ensures broken { IfOk result (λ judged. option_map broken_seen judged.broken ≡ least_broken (meaning.one_part_broken (told_in types.old) (nodes_of unit.now) (nodes_seen types.old facts.now) token part (type_at types.old of))) }
    ensures passed { IfOk result (λ judged. judged.passed ≡ least_token (large_at (told_in types.old) (nodes_of unit.now) part (option_map (type_at types.new) judged.made))) }
    ensures keeps { OnOk result (TypesJoin types.old types.new) }
{
    let type_made = derived(alloc, unit, facts, types, token, part, of)?;
    let broken = part_broken_by(unit, types, part, of, type_made);
    let made = type_unless(broken, type_made);
    Ok(JudgedParts {
        made,
        broken,
        passed: large_part(unit, types, part, made),
    })
}

/// What is found of the parts of a declarator behind this type, in a declaration that begins at this token. It takes the steps of
/// each part, and one for each attribute in it.
pub fn judge_parts(
    alloc: Global,
    unit: &Unit,
    facts: &NodeFacts,
    types: &mut Types,
    token: u32,
    parts: &TagList,
    of: TypeId,
) -> Result<JudgedParts, AllocError>
    requires whole { unit.now.first ≡ 0 }
    requires facts { All (IsKnownNodeFact types.old) facts.now }
    requires of { IsTypeId types.old of }
    ensures made { IfOk result (λ judged. option_map (type_at types.new) judged.made ≡ meaning.made_by_parts (told_in types.old) (nodes_of unit.now) (nodes_seen types.old facts.now) token (handles_of parts.now) (Some (type_at types.old of))) }
    ensures known { IfOk result (λ judged. IfSome judged.made (IsTypeId types.new)) }
    ensures broken { IfOk result (λ judged. option_map broken_seen judged.broken ≡ least_broken (meaning.parts_broken (told_in types.old) (nodes_of unit.now) (nodes_seen types.old facts.now) token (handles_of parts.now) (Some (type_at types.old of)))) }
    ensures passed { IfOk result (λ judged. judged.passed ≡ least_token (meaning.large_parts_of (told_in types.old) (nodes_of unit.now) (nodes_seen types.old facts.now) token (handles_of parts.now) (Some (type_at types.old of)))) }
    ensures keeps { OnOk result (TypesJoin types.old types.new) }
{
    let mut of = of;
    let mut broken = None;
    let mut passed = None;
    for (part, _) in parts.iter() {
        let judged = judge_part(alloc, unit, facts, types, token, part, of)?;
        broken = lesser(broken, judged.broken);
        passed = lowest(passed, judged.passed);
        match judged.made {
            Some(made) => of = made,
            None => {
                return Ok(JudgedParts {
                    made: None,
                    broken,
                    passed,
                });
            }
        }
    }
    Ok(JudgedParts {
        made: Some(of),
        broken,
        passed,
    })
}
