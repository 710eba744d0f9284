// The rows of calls (C11 6.5.2.2).
ghost use Rattle.std.specs.Prelude.{◌≡◌, ◌<◌, All, IfOk, OnOk, drop, map};
ghost use Rattle.meaning_typing.specs.Typing.{argument_at};
ghost use Rattle.decl_judge.specs.Units.{handles_of, nodes_of};
ghost use Rattle.expression_rows.specs.Arguments.{IsKnownArgument, argument_seen};
ghost use Rattle.expr_judge.specs.Parts.{only_arguments};
ghost use Rattle.node_facts.specs.Facts.{IsKnownNodeFact, nodes_seen};
ghost use Rattle.node_facts.specs.Growing.{TypesJoin};

use crate::parts::operand_at;
use c_tree::Unit;
use c_types::Types;
use decl_judge::{child_at, token_at};
use expression_rows::Argument;
use node_facts::NodeFacts;
use std::alloc::{AllocError, Global};
use tag_list::TagList;

/// The arguments among the children of a call, which stand behind the first one. It takes a step for each of them.
pub fn arguments_among(
    alloc: Global,
    unit: &Unit,
    types: &mut Types,
    facts: &NodeFacts,
    children: &TagList,
) -> Result<Vec<Argument>, AllocError>
    requires whole { unit.now.first ≡ 0 }
    requires known { All (IsKnownNodeFact types.old) facts.now }
    ensures seen { IfOk result (λ arguments. map (argument_seen types.new) arguments.items ≡ only_arguments (map (argument_at (nodes_of unit.now) (nodes_seen types.old facts.now)) (drop 1 (handles_of children.now)))) }
    ensures known { IfOk result (λ arguments. All (IsKnownArgument types.new) arguments.items) }
    ensures keeps { OnOk result (TypesJoin types.old types.new) }
{
    let mut arguments = Vec::new(alloc);
    let mut others = children.iter();
    let _callee = others.next();
    for (child, _) in others {
        let token = token_at(unit, child);
        let part = operand_at(types, facts, child)?;
        arguments.push(Argument { token, part })?;
    }
    Ok(arguments)
}
