// What is asked of the parts of an expression.
ghost use Rattle.std.specs.Prelude.{◌≡◌, All, IfOk, IfSome, OnOk, option_map};
ghost use Rattle.meaning_typing.specs.Facts.{fact_at};
ghost use Rattle.meaning_typing.specs.Typing.{first_fact};
ghost use Rattle.decl_judge.specs.Units.{handles_of};
ghost use Rattle.node_facts.specs.Facts.{IsKnownNodeFact, nodes_seen};
ghost use Rattle.node_facts.specs.Growing.{TypesJoin};
ghost use Rattle.expression_rows.specs.Facts.{IsValued, valued_part};
ghost use Rattle.expression_rows.specs.Parts.{IsKnownReturn, returned_seen};
ghost use Rattle.expr_judge.specs.Parts.{declaration_in, expression_in, kept_at, only_expression};

use c_tree::Handle;
use c_types::Types;
use expression_rows::{Returned, Valued, with_value};
use node_facts::{DeclaredFact, ExpressionFact, NodeFact, NodeFacts};
use std::alloc::AllocError;
use tag_list::TagList;

/// What is known of an expression, if it is one.
pub fn expression_of(fact: NodeFact) -> Option<ExpressionFact>
    ensures { result ≡ expression_in fact }
{
    match fact {
        NodeFact::Expression(expression) => Some(expression),
        _ => None,
    }
}

/// What a declarator declares, if something is known of one.
pub fn declaration_of(fact: NodeFact) -> Option<DeclaredFact>
    ensures { result ≡ declaration_in fact }
{
    match fact {
        NodeFact::Declared(declaration) => Some(declaration),
        _ => None,
    }
}

/// What is known of the expression with this handle, if it is one.
pub fn expression_at(facts: &NodeFacts, handle: Handle) -> Option<ExpressionFact>
    ensures { result ≡ expression_in (kept_at facts.now handle) }
{
    expression_of(facts.at(handle))
}

/// The same, with the type of its value, which joins the table if it is new.
pub fn operand_at(
    types: &mut Types,
    facts: &NodeFacts,
    handle: Handle,
) -> Result<Option<Valued>, AllocError>
    requires { All (IsKnownNodeFact types.old) facts.now }
    ensures seen { IfOk result (λ found. valued_part types.new found ≡ only_expression (fact_at (nodes_seen types.old facts.now) handle)) }
    ensures valued { IfOk result (λ found. IfSome found (IsValued types.new)) }
    ensures keeps { OnOk result (TypesJoin types.old types.new) }
{
    let part = expression_at(facts, handle);
    let found = with_value(types, part)?;
    Ok(found)
}

/// The same of two.
pub fn operands_at(
    types: &mut Types,
    facts: &NodeFacts,
    first: Handle,
    second: Handle,
) -> Result<(Option<Valued>, Option<Valued>), AllocError>
    requires { All (IsKnownNodeFact types.old) facts.now }
    ensures first { IfOk result (λ found. valued_part types.new found.0 ≡ only_expression (fact_at (nodes_seen types.old facts.now) first)) }
    ensures second { IfOk result (λ found. valued_part types.new found.1 ≡ only_expression (fact_at (nodes_seen types.old facts.now) second)) }
    ensures first_valued { IfOk result (λ found. IfSome found.0 (IsValued types.new)) }
    ensures second_valued { IfOk result (λ found. IfSome found.1 (IsValued types.new)) }
    ensures keeps { OnOk result (TypesJoin types.old types.new) }
{
    let left = operand_at(types, facts, first)?;
    let right = operand_at(types, facts, second)?;
    Ok((left, right))
}

/// What stands behind `return`, or is an expression statement, by the children of the statement.
pub fn returned_among(
    types: &mut Types,
    facts: &NodeFacts,
    children: &TagList,
) -> Result<Returned, AllocError>
    requires { All (IsKnownNodeFact types.old) facts.now }
    ensures seen { IfOk result (λ returned. returned_seen types.new returned ≡ option_map only_expression (first_fact (nodes_seen types.old facts.now) (handles_of children.now))) }
    ensures known { IfOk result (IsKnownReturn types.new) }
    ensures keeps { OnOk result (TypesJoin types.old types.new) }
{
    match children.iter().next() {
        Some((value, _)) => Ok(Returned::Value(operand_at(types, facts, value)?)),
        None => Ok(Returned::Nothing),
    }
}
