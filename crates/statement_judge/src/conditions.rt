// The rows of statements by their conditions, by the value of a switch, and of `return` (C11 6.8.4, 6.8.5, 6.8.6.4).
ghost use Rattle.std.specs.Prelude.{◌≡◌, ◌<◌, All, IfOk};
ghost use Rattle.meaning_tree.specs.Nodes.{end_of};
ghost use Rattle.meaning_statements.specs.StatementRows as meaning;
ghost use Rattle.meaning_statements.specs.Statements as statements;
ghost use Rattle.meaning_typing.specs.Statements.{result_around};
ghost use Rattle.meaning_typing.specs.Typing.{first_fact, part_fact, part_token, token_at as token_of};
ghost use Rattle.meaning_typing.specs.Units.{child_at as child_of, children_at, kind_at as kind_of};
ghost use Rattle.decl_judge.specs.Units.{nodes_of};
ghost use Rattle.node_facts.specs.Facts.{IsKnownNodeFact, nodes_seen};
ghost use Rattle.statement_judge.specs.Rows.{Says};

use crate::parts::{part_at, part_token, result_around};
use c_tree::{Handle, Unit};
use c_types::Types;
use decl_judge::{child_at, kind_at, token_at};
use expr_judge::returned_among;
use expression_rows::Row;
use node_facts::NodeFacts;
use sparse_model::NodeKind;
use statement_rows::{judge_condition, judge_do, judge_return_statement, judge_switch};
use std::alloc::AllocError;

/// The row of `if`, `while` or `for`, whose condition is the part at this place.
pub fn condition(
    unit: &Unit,
    types: &mut Types,
    facts: &NodeFacts,
    handle: Handle,
    place: u32,
) -> Result<Row, AllocError>
    requires whole { unit.now.first ≡ 0 }
    requires ids { All (IsKnownNodeFact types.old) facts.now }
    ensures { IfOk result (λ row. Says types.old types.new row (meaning.condition_at (nodes_of unit.now) (nodes_seen types.old facts.now) handle place)) }
{
    let condition = part_at(unit, types, facts, handle, place)?;
    let token = token_at(unit, handle);
    let standing = part_token(unit, handle, place);
    Ok(judge_condition(types, token, standing, condition))
}

fn is_braced(kind: NodeKind) -> bool
    ensures { result ≡ meaning.is_braced kind }
{
    match kind {
        NodeKind::CompoundStatement => true,
        _ => false,
    }
}

/// The row of `do`, whose condition stands behind its body.
pub fn do_statement(
    unit: &Unit,
    types: &mut Types,
    facts: &NodeFacts,
    handle: Handle,
) -> Result<Row, AllocError>
    requires whole { unit.now.first ≡ 0 }
    requires ids { All (IsKnownNodeFact types.old) facts.now }
    ensures { IfOk result (λ row. Says types.old types.new row (statements.do_row (token_of (nodes_of unit.now) handle) (part_token (nodes_of unit.now) handle 1) (meaning.is_braced (kind_of (nodes_of unit.now) (child_of (nodes_of unit.now) handle 0))) (part_fact (nodes_of unit.now) (nodes_seen types.old facts.now) handle 1))) }
{
    let condition = part_at(unit, types, facts, handle, 1)?;
    let braced = is_braced(kind_at(unit, child_at(unit, handle, 0)));
    let token = token_at(unit, handle);
    let standing = part_token(unit, handle, 1);
    Ok(judge_do(types, token, standing, braced, condition))
}

/// The row of `switch`.
pub fn switch_statement(
    unit: &Unit,
    types: &mut Types,
    facts: &NodeFacts,
    handle: Handle,
) -> Result<Row, AllocError>
    requires whole { unit.now.first ≡ 0 }
    requires ids { All (IsKnownNodeFact types.old) facts.now }
    ensures { IfOk result (λ row. Says types.old types.new row (statements.switch_row (token_of (nodes_of unit.now) handle) (part_token (nodes_of unit.now) handle 0) (part_fact (nodes_of unit.now) (nodes_seen types.old facts.now) handle 0))) }
{
    let switched = part_at(unit, types, facts, handle, 0)?;
    let token = token_at(unit, handle);
    let standing = part_token(unit, handle, 0);
    Ok(judge_switch(types, token, standing, switched))
}

/// The row of `return` in this function, if one is around it.
pub fn return_statement(
    unit: &Unit,
    types: &mut Types,
    facts: &NodeFacts,
    handle: Handle,
    function: Option<Handle>,
) -> Result<Row, AllocError>
    requires whole { unit.now.first ≡ 0 }
    requires node { handle < end_of unit.now }
    requires ids { All (IsKnownNodeFact types.old) facts.now }
    ensures { IfOk result (λ row. Says types.old types.new row (statements.whole_return_row (token_of (nodes_of unit.now) handle) (part_token (nodes_of unit.now) handle 0) (first_fact (nodes_seen types.old facts.now) (children_at (nodes_of unit.now) handle)) (result_around (nodes_of unit.now) (nodes_seen types.old facts.now) function))) }
{
    let value = returned_among(types, facts, &unit.node(handle).children)?;
    let answer = result_around(unit, types, facts, function);
    let token = token_at(unit, handle);
    let standing = part_token(unit, handle, 0);
    Ok(judge_return_statement(types, token, standing, value, answer))
}
