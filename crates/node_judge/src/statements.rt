// The rows of statements (C11 6.8).
ghost use Rattle.std.specs.Prelude.{◌≡◌, ◌<◌, All, IfOk, IfSome, length, option_map};
ghost use Rattle.vocabulary.specs.declared.node_kind.NodeKind.TheVariants as kinds;
ghost use Rattle.meaning_tree.specs.Nodes.{end_of};
ghost use Rattle.meaning_typing.specs.Facts.{fact_at};
ghost use Rattle.meaning_typing.specs.Statements as meaning;
ghost use Rattle.c_types.specs.Table.{IsTypeId, type_at};
ghost use Rattle.decl_judge.specs.Units.{nodes_of};
ghost use Rattle.expr_judge.specs.Rows.{Tells};
ghost use Rattle.node_facts.specs.Facts.{IsKnownNodeFact, nodes_seen};
ghost use Rattle.node_surroundings.specs.Seen.{surroundings_seen};
ghost use Rattle.node_judge.specs.Rows.{row_over};

use c_tree::{Handle, Unit};
use c_types::Types;
use decl_judge::{child_at, token_at};
use expr_judge::{NodeRow, declaration_of, returned_among, take_row};
use expression_rows::judge_return;
use member_declarations::result_in;
use node_facts::NodeFacts;
use node_surroundings::Surroundings;
use sparse_model::{FailureList, TypeId};
use std::alloc::AllocError;

// The result of the function that the declarator with this handle declares.
fn result_declared(types: &Types, facts: &NodeFacts, handle: Handle) -> Option<TypeId>
    requires { All (IsKnownNodeFact types.now) facts.now }
    ensures seen { option_map (type_at types.now) result ≡ meaning.result_declared (fact_at (nodes_seen types.now facts.now) handle) }
    ensures known { IfSome result (IsTypeId types.now) }
{
    let declaration = declaration_of(facts.at(handle))?;
    result_in(types, declaration.of)
}

// The result of the function around, whose declarator is its second part.
fn result_around(
    unit: &Unit,
    types: &Types,
    facts: &NodeFacts,
    function: Option<Handle>,
) -> Option<TypeId>
    requires whole { unit.now.first ≡ 0 }
    requires ids { All (IsKnownNodeFact types.now) facts.now }
    ensures seen { option_map (type_at types.now) result ≡ meaning.result_around (nodes_of unit.now) (nodes_seen types.now facts.now) function }
    ensures known { IfSome result (IsTypeId types.now) }
{
    match function {
        Some(function) => result_declared(types, facts, child_at(unit, function, 1)),
        None => None,
    }
}

/// The row of `return` (6.8.6.4). It takes a few steps.
pub fn return_statement(
    unit: &Unit,
    surroundings: &Surroundings,
    types: &mut Types,
    facts: &NodeFacts,
    found: &mut FailureList,
    handle: Handle,
) -> Result<NodeRow, AllocError>
    requires whole { unit.now.first ≡ 0 }
    requires node { handle < end_of unit.now }
    requires surroundings { length surroundings.now ≡ length unit.now.nodes }
    requires ids { All (IsKnownNodeFact types.old) facts.now }
    ensures { IfOk result (λ row. Tells types.old types.new found.old found.new row (row_over (nodes_of unit.now) (surroundings_seen surroundings.now) types.old facts.now handle kinds.ReturnStatement)) }
{
    let function = surroundings.get(handle).around.function;
    let answer = result_around(unit, types, facts, function);
    let children = &unit.node(handle).children;
    let value = returned_among(types, facts, children)?;
    let token = token_at(unit, handle);
    let standing = token_at(unit, child_at(unit, handle, 0));
    let row = judge_return(types, token, standing, value, answer);
    take_row(row, found)
}
