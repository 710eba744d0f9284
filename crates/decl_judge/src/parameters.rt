// Parameters of functions (C11 6.7.6.3).
ghost use Rattle.std.specs.Prelude.{◌≡◌, All, IfOk, IfSome, OnOk, Some, option_map};
ghost use Rattle.meaning_typing.specs.Declarators as meaning;
ghost use Rattle.meaning_typing.specs.Specifiers.{marks_among};
ghost use Rattle.c_types.specs.Rows.{types_numbered};
ghost use Rattle.c_types.specs.Table.{IsTypeId, type_at, types_in};
ghost use Rattle.node_facts.specs.Facts.{IsKnownNodeFact, nodes_seen, specified_seen};
ghost use Rattle.node_facts.specs.Growing.{TypesJoin};
ghost use Rattle.decl_judge.specs.Asked.{only_of, parameter_ids};
ghost use Rattle.decl_judge.specs.Seen.{marks_seen};
ghost use Rattle.decl_judge.specs.Units.{handles_of, nodes_of};

use crate::asked::{named_type_at, specifiers_of};
use crate::marking::{is_plain_void, make_plain};
use crate::marks::{Marks, marks_behind_place};
use crate::nodes::{child_at, kind_at};
use c_tree::{Handle, Unit};
use c_types::{ShapeBase, TypeIdList, Types};
use node_facts::{NodeFacts, SpecifiedFact};
use sparse_model::{NodeKind, TypeId};
use std::alloc::{AllocError, Global};
use tag_list::TagList;

fn is_ellipsis(kind: NodeKind) -> bool
    ensures { result ≡ meaning.is_ellipsis kind }
{
    match kind {
        NodeKind::Ellipsis => true,
        _ => false,
    }
}

fn is_declarator(kind: NodeKind) -> bool
    ensures { result ≡ meaning.is_declarator kind }
{
    match kind {
        NodeKind::Declarator => true,
        _ => false,
    }
}

/// Whether a parameter has a declarator.
pub fn has_declarator(unit: &Unit, parameter: Handle) -> bool
    requires { unit.now.first ≡ 0 }
    ensures { result ≡ meaning.has_declarator (nodes_of unit.now) parameter }
{
    is_declarator(kind_at(unit, child_at(unit, parameter, 1)))
}

// Whether more arguments may follow.
fn is_variadic(unit: &Unit, children: &TagList) -> bool
    requires { unit.now.first ≡ 0 }
    ensures { result ≡ meaning.is_variadic (nodes_of unit.now) (handles_of children.now) }
{
    for (child, _) in children.iter() {
        if is_ellipsis(kind_at(unit, child)) {
            return true;
        }
    }
    false
}

// The types of the parameters in order, if each is known.
fn parameter_types(
    alloc: Global,
    unit: &Unit,
    facts: &NodeFacts,
    children: &TagList,
) -> Result<Option<TypeIdList>, AllocError>
    requires { unit.now.first ≡ 0 }
    ensures { IfOk result (λ found. found ≡ parameter_ids (nodes_of unit.now) facts.now (handles_of children.now)) }
{
    let mut parameters = TypeIdList::new(alloc);
    for (child, _) in children.iter() {
        if is_ellipsis(kind_at(unit, child)) {
            continue;
        }
        let Some(of) = named_type_at(facts, child) else {
            return Ok(None);
        };
        if let Err((fault, _)) = parameters.push(of) {
            return Err(fault);
        }
    }
    Ok(Some(parameters))
}

/// What attributes directly behind the specifiers of a parameter add: they are those of one without a declarator.
pub fn nameless_marks(unit: &Unit, parameter: Handle) -> Result<Marks, AllocError>
    requires { unit.now.first ≡ 0 }
    ensures { IfOk result (λ marks. marks_seen marks ≡ marks_among (nodes_of unit.now) (meaning.lists_behind (nodes_of unit.now) parameter 0)) }
{
    marks_behind_place(unit, Marks::none(), parameter, 0)
}

// Whether a parameter of which the specifiers say this is plain `void`, without a declarator.
fn is_void_specified(
    unit: &Unit,
    types: &Types,
    parameter: Handle,
    specifiers: SpecifiedFact,
) -> Result<bool, AllocError>
    requires whole { unit.now.first ≡ 0 }
    requires specifiers { IsTypeId types.now specifiers.of }
    ensures { IfOk result (λ is. is ≡ meaning.is_void_parameter (nodes_of unit.now) parameter (Some (specified_seen types.now specifiers))) }
{
    if has_declarator(unit, parameter) {
        return Ok(false);
    }
    if !is_plain_void(types, specifiers.of) {
        return Ok(false);
    }
    let marks = nameless_marks(unit, parameter)?;
    Ok(!marks.has_flag())
}

fn is_void_parameter(
    unit: &Unit,
    facts: &NodeFacts,
    types: &Types,
    parameter: Handle,
) -> Result<bool, AllocError>
    requires whole { unit.now.first ≡ 0 }
    requires facts { All (IsKnownNodeFact types.now) facts.now }
    ensures { IfOk result (λ is. is ≡ meaning.is_void_parameter (nodes_of unit.now) parameter (meaning.specifiers_of (nodes_of unit.now) (nodes_seen types.now facts.now) parameter)) }
{
    match specifiers_of(unit, facts, parameter) {
        Some(specifiers) => is_void_specified(unit, types, parameter, specifiers),
        None => Ok(false),
    }
}

// The only child.
fn only_child(children: &TagList) -> Option<Handle>
    ensures { result ≡ only_of (handles_of children.now) }
{
    if children.len() == 1 {
        Some(children.get(0).0)
    } else {
        None
    }
}

/// Whether parameters are `(void)`.
pub fn is_void_list(
    unit: &Unit,
    facts: &NodeFacts,
    types: &Types,
    children: &TagList,
) -> Result<bool, AllocError>
    requires whole { unit.now.first ≡ 0 }
    requires facts { All (IsKnownNodeFact types.now) facts.now }
    ensures { IfOk result (λ is. is ≡ meaning.is_void_list (nodes_of unit.now) (nodes_seen types.now facts.now) (handles_of children.now)) }
{
    match only_child(children) {
        Some(parameter) => is_void_parameter(unit, facts, types, parameter),
        None => Ok(false),
    }
}

// A function with this result and these parameters.
fn function_type(
    types: &mut Types,
    answer: TypeId,
    parameters: TypeIdList,
    variadic: bool,
) -> Result<TypeId, AllocError>
    requires answer { IsTypeId types.old answer }
    requires parameters { All (IsTypeId types.old) parameters }
    ensures made { IfOk result (λ id. type_at types.new id ≡ meaning.function_type (type_at types.old answer) variadic (types_numbered (types_in types.old) parameters)) }
    ensures known { IfOk result (IsTypeId types.new) }
    ensures keeps { OnOk result (TypesJoin types.old types.new) }
{
    make_plain(types, ShapeBase::Function(answer, parameters, variadic))
}

/// A function with this result and the parameters among these children, if the type of each is known. `()` is `(void)`: our
/// choice.
pub fn function_of(
    alloc: Global,
    unit: &Unit,
    facts: &NodeFacts,
    types: &mut Types,
    children: &TagList,
    answer: TypeId,
) -> Result<Option<TypeId>, AllocError>
    requires whole { unit.now.first ≡ 0 }
    requires facts { All (IsKnownNodeFact types.old) facts.now }
    requires answer { IsTypeId types.old answer }
    ensures made { IfOk result (λ found. option_map (type_at types.new) found ≡ meaning.function_of (nodes_of unit.now) (nodes_seen types.old facts.now) (handles_of children.now) (type_at types.old answer)) }
    ensures known { IfOk result (λ found. IfSome found (IsTypeId types.new)) }
    ensures keeps { OnOk result (TypesJoin types.old types.new) }
{
    if is_void_list(unit, facts, types, children)? {
        let of = function_type(types, answer, TypeIdList::new(alloc), false)?;
        return Ok(Some(of));
    }
    match parameter_types(alloc, unit, facts, children)? {
        Some(parameters) => {
            let variadic = is_variadic(unit, children);
            Ok(Some(function_type(types, answer, parameters, variadic)?))
        }
        None => Ok(None),
    }
}
