// Assertions (C11 6.7.10 p2): what is known of the expression in, whether it is 0 or no constant out.
ghost use Rattle.std.specs.Prelude.{◌≡◌, All, option_map};
ghost use Rattle.meaning_rules.specs.Rules.{least_broken};
ghost use Rattle.meaning_typing.specs.Facts.{Expression};
ghost use Rattle.meaning_typing.specs.WholeTyping as meaning;
ghost use Rattle.decl_judge.specs.Units.{nodes_of};
ghost use Rattle.expr_judge.specs.Rows.{SaysOnly};
ghost use Rattle.expression_rows.specs.Rows.{broken_seen};
ghost use Rattle.node_facts.specs.Facts.{IsKnownFact, IsKnownNodeFact, fact_seen, node_seen, nodes_seen};
ghost use Rattle.declaration_judge.specs.Rows.{asserted_row};

use crate::row::breaks;
use c_tree::{Handle, Unit};
use c_types::Types;
use decl_judge::{child_at, token_at};
use expr_judge::NodeRow;
use expression_rows::{Broken, broken_at, number_of};
use node_facts::{ExpressionFact, NodeFact, NodeFacts};
use sparse_model::ErrorKind;

fn holds_number(number: Option<i128>) -> bool
    ensures { result ≡ meaning.holds_number number }
{
    match number {
        None => false,
        Some(number) => number != 0,
    }
}

fn expression_broken(types: &Types, token: u32, asserted: ExpressionFact) -> Option<Broken>
    requires { IsKnownFact types.now asserted }
    ensures { option_map broken_seen result ≡ least_broken (meaning.assertion_row token (Expression (fact_seen types.now asserted))).broken }
{
    if holds_number(number_of(types, asserted)) {
        None
    } else {
        broken_at(ErrorKind::StaticAssertionFailed, token)
    }
}

fn assertion_broken(types: &Types, token: u32, asserted: NodeFact) -> Option<Broken>
    requires { IsKnownNodeFact types.now asserted }
    ensures { option_map broken_seen result ≡ least_broken (meaning.assertion_row token (node_seen types.now asserted)).broken }
{
    match asserted {
        NodeFact::Expression(expression) => expression_broken(types, token, expression),
        _ => None,
    }
}

/// The row of the assertion with this handle: its expression is a constant that isn't 0. It takes a few steps.
pub fn static_assertion(unit: &Unit, types: &Types, facts: &NodeFacts, handle: Handle) -> NodeRow
    requires whole { unit.now.first ≡ 0 }
    requires facts { All (IsKnownNodeFact types.now) facts.now }
    ensures { SaysOnly types.now result (asserted_row (nodes_of unit.now) (nodes_seen types.now facts.now) handle) }
{
    let asserted = facts.at(child_at(unit, handle, 0));
    breaks(assertion_broken(types, token_at(unit, handle), asserted))
}
