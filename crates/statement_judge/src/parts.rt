// What is asked of the parts of statements.
ghost use Rattle.std.specs.Prelude.{◌≡◌, All, IfOk, IfSome, OnOk, option_map};
ghost use Rattle.meaning_statements.specs.StatementRows as meaning;
ghost use Rattle.meaning_typing.specs.Statements as statements;
ghost use Rattle.meaning_typing.specs.Facts.{fact_at};
ghost use Rattle.meaning_typing.specs.Typing.{part_fact, part_token};
ghost use Rattle.meaning_typing.specs.Units.{node_at as node_of};
ghost use Rattle.c_types.specs.Table.{IsTypeId, type_at};
ghost use Rattle.decl_judge.specs.Units.{nodes_of};
ghost use Rattle.expr_judge.specs.Parts.{only_expression};
ghost use Rattle.expression_rows.specs.Facts.{IsValued, valued_part};
ghost use Rattle.node_facts.specs.Facts.{IsKnownNodeFact, name_seen, nodes_seen};
ghost use Rattle.node_facts.specs.Growing.{TypesJoin};

use c_tree::{Handle, Unit};
use c_types::{OuterBase, Outline, Types};
use decl_judge::{child_at, node_at, token_at};
use expr_judge::{declaration_of, operand_at, operands_at};
use expression_rows::Valued;
use node_facts::NodeFacts;
use sparse_model::{NameId, TypeId};
use std::alloc::AllocError;

/// The name that the node with this handle holds.
pub fn name_at(unit: &Unit, handle: Handle) -> NameId
    requires { unit.now.first ≡ 0 }
    ensures { name_seen result ≡ (node_of (nodes_of unit.now) handle).name }
{
    match node_at(unit, handle) {
        Some(node) => node.name,
        None => NameId(0),
    }
}

/// What is known of the part at this place, as an expression.
pub fn part_at(
    unit: &Unit,
    types: &mut Types,
    facts: &NodeFacts,
    handle: Handle,
    place: u32,
) -> Result<Option<Valued>, AllocError>
    requires whole { unit.now.first ≡ 0 }
    requires ids { All (IsKnownNodeFact types.old) facts.now }
    ensures seen { IfOk result (λ found. valued_part types.new found ≡ only_expression (part_fact (nodes_of unit.now) (nodes_seen types.old facts.now) handle place)) }
    ensures valued { IfOk result (λ found. IfSome found (IsValued types.new)) }
    ensures keeps { OnOk result (TypesJoin types.old types.new) }
{
    let part = child_at(unit, handle, place);
    let found = operand_at(types, facts, part)?;
    Ok(found)
}

/// What is known of the label of a `case`, and of the value of its switch.
#[derive(Clone, Copy)]
pub struct CaseParts {
    pub label: Option<Valued>,
    pub switched: Option<Valued>,
}

/// The label of a `case`, and the value of its switch, if one is around it.
pub fn case_parts(
    unit: &Unit,
    types: &mut Types,
    facts: &NodeFacts,
    handle: Handle,
    switch: Option<Handle>,
) -> Result<CaseParts, AllocError>
    requires whole { unit.now.first ≡ 0 }
    requires ids { All (IsKnownNodeFact types.old) facts.now }
    ensures label { IfOk result (λ found. valued_part types.new found.label ≡ only_expression (part_fact (nodes_of unit.now) (nodes_seen types.old facts.now) handle 0)) }
    ensures switched { IfOk result (λ found. valued_part types.new found.switched ≡ only_expression (meaning.switched_fact (nodes_of unit.now) (nodes_seen types.old facts.now) switch)) }
    ensures label_valued { IfOk result (λ found. IfSome found.label (IsValued types.new)) }
    ensures switched_valued { IfOk result (λ found. IfSome found.switched (IsValued types.new)) }
    ensures keeps { OnOk result (TypesJoin types.old types.new) }
{
    let label = child_at(unit, handle, 0);
    match switch {
        Some(switch) => {
            let value = child_at(unit, switch, 0);
            let both = operands_at(types, facts, label, value)?;
            Ok(CaseParts {
                label: both.0,
                switched: both.1,
            })
        }
        None => {
            let alone = operand_at(types, facts, label)?;
            Ok(CaseParts {
                label: alone,
                switched: None,
            })
        }
    }
}

// The result of a function, if the type is one. It takes a step for each parameter.
fn result_in(types: &Types, of: TypeId) -> Option<TypeId>
    requires { IsTypeId types.now of }
    ensures seen { option_map (type_at types.now) result ≡ statements.result_in (type_at types.now of) }
    ensures known { IfSome result (IsTypeId types.now) }
{
    match types.outline(of) {
        Outline::Function => match types.shape(of).base {
            OuterBase::Function(answer, _, _) => Some(answer),
            _ => None,
        },
        _ => None,
    }
}

// The result of the function that a declarator declares.
fn result_declared(types: &Types, facts: &NodeFacts, handle: Handle) -> Option<TypeId>
    requires ids { All (IsKnownNodeFact types.now) facts.now }
    ensures seen { option_map (type_at types.now) result ≡ statements.result_declared (fact_at (nodes_seen types.now facts.now) handle) }
    ensures known { IfSome result (IsTypeId types.now) }
{
    let declaration = declaration_of(facts.at(handle))?;
    result_in(types, declaration.of)
}

/// The result of the function around, whose declarator is its second part.
pub fn result_around(
    unit: &Unit,
    types: &Types,
    facts: &NodeFacts,
    function: Option<Handle>,
) -> Option<TypeId>
    requires whole { unit.now.first ≡ 0 }
    requires ids { All (IsKnownNodeFact types.now) facts.now }
    ensures seen { option_map (type_at types.now) result ≡ statements.result_around (nodes_of unit.now) (nodes_seen types.now facts.now) function }
    ensures known { IfSome result (IsTypeId types.now) }
{
    match function {
        Some(function) => result_declared(types, facts, child_at(unit, function, 1)),
        None => None,
    }
}

/// The token at which the part at this place stands.
pub fn part_token(unit: &Unit, handle: Handle, place: u32) -> u32
    requires { unit.now.first ≡ 0 }
    ensures { result ≡ part_token (nodes_of unit.now) handle place }
{
    token_at(unit, child_at(unit, handle, place))
}
