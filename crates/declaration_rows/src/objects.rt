// What is declared (C11 6.7 p7, 6.9.1 p3): a declaration and where it stands in, whether it defines and what its type breaks at its
// name out. Other declarations of the name aren't known here.
ghost use Rattle.std.specs.Prelude.{◌≡◌, ◌+◌, IfSome, option_map};
ghost use Rattle.meaning_rules.specs.Rules.{least_broken};
ghost use Rattle.meaning_typing.specs.DeclarationRows as meaning;
ghost use Rattle.meaning_typing.specs.Declarators.{in_file};
ghost use Rattle.meaning_typing.specs.Statements as statements;
ghost use Rattle.meaning_typing.specs.Units.{kind_at as kind_of};
ghost use Rattle.c_types.specs.Layouts.{told_in};
ghost use Rattle.c_types.specs.Table.{IsTypeId, type_at};
ghost use Rattle.decl_judge.specs.Seen.{is_list};
ghost use Rattle.decl_judge.specs.Units.{nodes_of};
ghost use Rattle.expression_rows.specs.Rows.{broken_seen};
ghost use Rattle.node_facts.specs.Facts.{declared_seen};
ghost use Rattle.node_surroundings.specs.Seen.{surrounding_seen};
ghost use Rattle.declaration_rows.specs.Objects.{initializer_from, is_incomplete_object, result_broken};

use crate::complete::{incomplete_name, is_no_object, is_unbounded};
use c_tree::{Handle, Unit};
use c_types::{OuterBase, Outline, Types};
use decl_judge::{is_unit, kind_at, node_at};
use expression_rows::{Broken, has_no_size, is_void};
use node_facts::DeclaredFact;
use node_surroundings::Surrounding;
use sparse_model::{NodeKind, TypeId};
use tag_list::TagList;

/// Whether a node of this kind is a list of attributes.
pub fn is_list(kind: NodeKind) -> bool
    ensures { result ≡ is_list kind }
{
    match kind {
        NodeKind::AttributeList => true,
        _ => false,
    }
}

/// Whether a node of this kind is an initializer.
pub fn is_initializer(kind: NodeKind) -> bool
    ensures { result ≡ meaning.is_initializer kind }
{
    match kind {
        NodeKind::Initializer => true,
        _ => false,
    }
}

// Whether the first part behind this place that is no list of attributes is an initializer.
fn initializer_after(unit: &Unit, children: &TagList, place: u32) -> bool
    requires { unit.now.first ≡ 0 }
    ensures { result ≡ initializer_from (nodes_of unit.now) children.now (place + 1) }
{
    for next in place.saturating_add(1)..children.len() {
        let kind = kind_at(unit, children.get(next).0);
        if !is_list(kind) {
            return is_initializer(kind);
        }
    }
    false
}

/// Whether a declarator that stands so has an initializer. It takes a step for each list of attributes directly behind it.
pub fn has_initializer(unit: &Unit, surrounding: Surrounding) -> bool
    requires { unit.now.first ≡ 0 }
    ensures { result ≡ meaning.has_initializer (nodes_of unit.now) (surrounding_seen surrounding) }
{
    match node_at(unit, surrounding.parent) {
        Some(node) => initializer_after(unit, &node.children, surrounding.place),
        None => false,
    }
}

/// Whether a node of this kind is a definition of a function.
pub fn is_definition_kind(kind: NodeKind) -> bool
    ensures { result ≡ meaning.is_definition_kind kind }
{
    match kind {
        NodeKind::FunctionDefinition => true,
        _ => false,
    }
}

/// Whether a node of this kind is a declaration.
pub fn is_declaration_kind(kind: NodeKind) -> bool
    ensures { result ≡ meaning.is_declaration_kind kind }
{
    match kind {
        NodeKind::Declaration => true,
        _ => false,
    }
}

/// Whether a declarator that stands so defines what it declares: it has a body or an initializer.
pub fn defines(unit: &Unit, surrounding: Surrounding) -> bool
    requires { unit.now.first ≡ 0 }
    ensures { result ≡ meaning.defines (nodes_of unit.now) (surrounding_seen surrounding) }
{
    let kind = kind_at(unit, surrounding.parent);
    is_definition_kind(kind) || (is_declaration_kind(kind) && has_initializer(unit, surrounding))
}

/// Whether what stands so is at file scope.
pub fn in_file(unit: &Unit, surrounding: Surrounding) -> bool
    requires { unit.now.first ≡ 0 }
    ensures { result ≡ in_file (nodes_of unit.now) (surrounding_seen surrounding) }
{
    is_unit(kind_at(unit, surrounding.around.scope))
}

// Whether an object of this type is incomplete, where an initializer may say the length.
fn is_incomplete_object(types: &Types, is_initialized: bool, of: TypeId) -> bool
    requires { IsTypeId types.now of }
    ensures { result ≡ is_incomplete_object (told_in types.now) is_initialized (type_at types.now of) }
{
    is_no_object(types, of) && !(is_initialized && is_unbounded(types, of))
}

/// What an object without linkage breaks at its name, at the end of its declarator or its initializer: its type is complete, where
/// an initializer may say the length. So it is of one with linkage that has an initializer.
pub fn object_broken(
    types: &Types,
    token: u32,
    is_initialized: bool,
    declaration: DeclaredFact,
) -> Option<Broken>
    requires { IsTypeId types.now declaration.of }
    ensures { option_map broken_seen result ≡ least_broken (meaning.object_broken (told_in types.now) token is_initialized (declared_seen types.now declaration)) }
{
    if declaration.is_typedef || (declaration.has_linkage && !is_initialized) {
        return None;
    }
    incomplete_name(
        token,
        is_incomplete_object(types, is_initialized, declaration.of),
    )
}

/// The result of a function, if the type is one. It takes a step for each parameter.
pub fn result_in(types: &Types, of: TypeId) -> Option<TypeId>
    requires { IsTypeId types.now of }
    ensures seen { option_map (type_at types.now) result ≡ statements.result_in (type_at types.now of) }
    ensures known { IfSome result (IsTypeId types.now) }
{
    match types.outline(of) {
        Outline::Function => match types.shape(of).base {
            OuterBase::Function(answer, _, _) => Some(answer),
            _ => None,
        },
        _ => None,
    }
}

fn result_broken(types: &Types, token: u32, answer: Option<TypeId>) -> Option<Broken>
    requires { IfSome answer (IsTypeId types.now) }
    ensures { option_map broken_seen result ≡ least_broken (result_broken (told_in types.now) token (option_map (type_at types.now) answer)) }
{
    match answer {
        Some(answer) => incomplete_name(
            token,
            !is_void(types, answer) && has_no_size(types, answer),
        ),
        None => None,
    }
}

/// What a function that is defined breaks at its name: its result is void or complete. It takes a step for each parameter.
#[tactic(auto, using(crate::proofs::ObjectLemmas::result_told))]
pub fn defined_result_broken(types: &Types, token: u32, of: TypeId) -> Option<Broken>
    requires { IsTypeId types.now of }
    ensures { option_map broken_seen result ≡ least_broken (meaning.defined_result_broken (told_in types.now) token (type_at types.now of)) }
{
    result_broken(types, token, result_in(types, of))
}

/// What the declaration breaks at its name whose declarator stands so.
pub fn declared_object_broken(
    unit: &Unit,
    types: &Types,
    token: u32,
    surrounding: Surrounding,
    declaration: DeclaredFact,
) -> Option<Broken>
    requires whole { unit.now.first ≡ 0 }
    requires of { IsTypeId types.now declaration.of }
    ensures { option_map broken_seen result ≡ least_broken (meaning.declared_object_broken (told_in types.now) (nodes_of unit.now) token (surrounding_seen surrounding) (kind_of (nodes_of unit.now) surrounding.parent) (declared_seen types.now declaration)) }
{
    match kind_at(unit, surrounding.parent) {
        NodeKind::Declaration => {
            let is_initialized = has_initializer(unit, surrounding);
            object_broken(types, token, is_initialized, declaration)
        }
        NodeKind::FunctionDefinition => defined_result_broken(types, token, declaration.of),
        _ => None,
    }
}
