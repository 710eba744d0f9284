// Parameters (C11 6.7.6.3): a parameter with its adjusted type and the list in which it stands in, the least that it breaks out. What
// the list belongs to is looked up; what it makes of a function isn't known here.
ghost use Rattle.std.specs.Prelude.{◌≡◌, All, IfOk, IfSome, Some, false, length, option_map};
ghost use Rattle.meaning_rules.specs.Rules.{least_broken};
ghost use Rattle.meaning_typing.specs.DeclarationRows as meaning;
ghost use Rattle.meaning_typing.specs.Declarators.{is_void_list};
ghost use Rattle.meaning_typing.specs.Units.{child_at as child_of, children_at, kind_at as kind_of};
ghost use Rattle.c_types.specs.Layouts.{told_in};
ghost use Rattle.c_types.specs.Table.{IsTypeId, TypeTable, type_at};
ghost use Rattle.decl_judge.specs.Units.{handles_of, nodes_of};
ghost use Rattle.expression_rows.specs.Rows.{IsKnownFailure, broken_seen, failure_listed};
ghost use Rattle.node_facts.specs.Facts.{IsKnownNodeFact, nodes_seen};
ghost use Rattle.node_surroundings.specs.Seen.{surroundings_seen};

use crate::complete::incomplete_name;
use crate::failures::failed_with;
use crate::objects::is_definition_kind;
use crate::standing::standing_at;
use c_tree::{Handle, Unit};
use c_types::Types;
use decl_judge::{child_at, is_void_list, kind_at, node_at, token_at};
use expression_rows::{Broken, has_no_size, is_void, lesser};
use node_facts::NodeFacts;
use node_surroundings::Surroundings;
use sparse_model::{Failure, NameId, NodeKind, RuleCode, TypeId};
use std::alloc::AllocError;
use tag_list::TagList;

// A void one is none, but where it stands alone without a name (p10).
fn void_parameter_broken(types: &Types, token: u32, is_alone: bool, of: TypeId) -> Option<Broken>
    requires { IsTypeId types.now of }
    ensures { option_map broken_seen result ≡ least_broken (meaning.void_parameter_broken token is_alone (Some (type_at types.now of))) }
{
    incomplete_name(token, is_void(types, of) && !is_alone)
}

// Those of a function that is defined have complete types (p4).
fn body_parameter_broken(types: &Types, token: u32, of_body: bool, of: TypeId) -> Option<Broken>
    requires { IsTypeId types.now of }
    ensures { option_map broken_seen result ≡ least_broken (meaning.body_parameter_broken (told_in types.now) token of_body false (Some (type_at types.now of))) }
{
    incomplete_name(
        token,
        of_body && !is_void(types, of) && has_no_size(types, of),
    )
}

/// The least that a parameter breaks at its token, by its adjusted type, if that is known, and by whether its list is that of a body
/// and it stands there alone without a name.
#[tactic(auto, using(crate::proofs::LeastLemmas::least_two))]
pub fn parameter_broken(
    types: &Types,
    token: u32,
    of_body: bool,
    is_alone: bool,
    of: Option<TypeId>,
) -> Option<Broken>
    requires { IfSome of (IsTypeId types.now) }
    ensures { option_map broken_seen result ≡ least_broken (meaning.parameter_broken (told_in types.now) token of_body is_alone (option_map (type_at types.now) of)) }
{
    match of {
        Some(of) => lesser(
            void_parameter_broken(types, token, is_alone, of),
            body_parameter_broken(types, token, of_body, of),
        ),
        None => None,
    }
}

// Attributes in parentheses leave the part of a declarator around which they stand what it is without them.
fn are_around_part(kind: NodeKind) -> bool
    ensures { result ≡ meaning.are_around_part kind }
{
    match kind {
        NodeKind::ParenthesizedAttributes => true,
        _ => false,
    }
}

// The part directly at the name; where there is none, a handle that no node has. It takes a step for each of such attributes.
fn part_at_name(unit: &Unit, parts: &TagList) -> Handle
    requires { unit.now.first ≡ 0 }
    ensures { result ≡ meaning.part_at_name (nodes_of unit.now) (handles_of parts.now) (length (nodes_of unit.now)) }
{
    let mut rest = parts.iter();
    'parts: while let Some((part, _)) = rest.next_back() {
        if !are_around_part(kind_at(unit, part)) {
            return part;
        }
    }
    unit.len()
}

// The same of a declarator.
fn part_at_name_of(unit: &Unit, declarator: Handle) -> Handle
    requires { unit.now.first ≡ 0 }
    ensures { result ≡ meaning.part_at_name (nodes_of unit.now) (children_at (nodes_of unit.now) declarator) (length (nodes_of unit.now)) }
{
    match node_at(unit, declarator) {
        Some(node) => part_at_name(unit, &node.children),
        None => unit.len(),
    }
}

/// Whether a list of parameters is that of a function that is defined: the part directly behind its name (6.9.1 p5). It takes a
/// step for each list of attributes in parentheses behind it.
pub fn is_list_of_body(unit: &Unit, surroundings: &Surroundings, list: Handle) -> bool
    requires whole { unit.now.first ≡ 0 }
    requires surroundings { length surroundings.now ≡ length unit.now.nodes }
    ensures { result ≡ meaning.is_list_of_body (nodes_of unit.now) (surroundings_seen surroundings.now) list }
{
    let declarator = standing_at(unit, surroundings, list).parent;
    let above = standing_at(unit, surroundings, declarator).parent;
    is_definition_kind(kind_at(unit, above)) && part_at_name_of(unit, declarator) == list
}

fn parameter_token(unit: &Unit, parameter: Handle) -> u32
    requires { unit.now.first ≡ 0 }
    ensures { result ≡ meaning.parameter_token (nodes_of unit.now) parameter (kind_of (nodes_of unit.now) (child_of (nodes_of unit.now) parameter 1)) (child_of (nodes_of unit.now) parameter 1) }
{
    let declarator = child_at(unit, parameter, 1);
    match kind_at(unit, declarator) {
        NodeKind::Declarator => token_at(unit, declarator),
        _ => token_at(unit, parameter),
    }
}

// Whether the parameters of a list are `(void)`.
fn is_void_list_at(
    unit: &Unit,
    types: &Types,
    facts: &NodeFacts,
    list: Handle,
) -> Result<bool, AllocError>
    requires whole { unit.now.first ≡ 0 }
    requires facts { All (IsKnownNodeFact types.now) facts.now }
    ensures { IfOk result (λ is. is ≡ is_void_list (nodes_of unit.now) (nodes_seen types.now facts.now) (children_at (nodes_of unit.now) list)) }
{
    match node_at(unit, list) {
        Some(node) => is_void_list(unit, facts, types, &node.children),
        None => Ok(false),
    }
}

/// The least that the parameter with this handle breaks, whose adjusted type is this, if it is known. It takes a step for each
/// attribute behind it. An attribute with a number of more than 32 bits, which none has that was read, is want of memory.
pub fn parameter_node_broken(
    unit: &Unit,
    surroundings: &Surroundings,
    types: &Types,
    facts: &NodeFacts,
    parameter: Handle,
    of: Option<TypeId>,
) -> Result<Option<Broken>, AllocError>
    requires whole { unit.now.first ≡ 0 }
    requires surroundings { length surroundings.now ≡ length unit.now.nodes }
    requires facts { All (IsKnownNodeFact types.now) facts.now }
    requires of { IfSome of (IsTypeId types.now) }
    ensures { IfOk result (λ broken. option_map broken_seen broken ≡ least_broken (meaning.parameter_node_broken (told_in types.now) (nodes_of unit.now) (surroundings_seen surroundings.now) (nodes_seen types.now facts.now) parameter (option_map (type_at types.now) of))) }
{
    let list = standing_at(unit, surroundings, parameter).parent;
    let of_body = is_list_of_body(unit, surroundings, list);
    let is_alone = is_void_list_at(unit, types, facts, list)?;
    let token = parameter_token(unit, parameter);
    Ok(parameter_broken(types, token, of_body, is_alone, of))
}

/// The failure of a list without parameters, at its token: `()` is taken as `(void)` (our choice).
pub fn empty_list_failure(token: u32, children: &TagList) -> Option<Failure>
    ensures listed { (table : TypeTable) → failure_listed table result ≡ meaning.empty_list_failures token (handles_of children.now) }
    ensures known { (table : TypeTable) → IfSome result (IsKnownFailure table) }
{
    if children.len() != 0 {
        return None;
    }
    Some(failed_with(RuleCode::S6, token, NameId(0)))
}
