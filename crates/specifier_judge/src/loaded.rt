// Rows of nodes that have no constant, as they are loaded where a value is wanted (C11 6.3.2.1 p2). In a unit that was read no value is
// wanted of a specifier; the definition asks it of any node.
ghost use Rattle.std.specs.Prelude.{◌≡◌, None};
ghost use Rattle.meaning_typing.specs.Rows.{Row as Stands};
ghost use Rattle.meaning_typing.specs.Surroundings as meaning;
ghost use Rattle.meaning_typing.specs.Typing.{row_with_constant};
ghost use Rattle.meaning_typing.specs.Wholes.{row_loaded};
ghost use Rattle.c_types.specs.Layouts.{told_in};
ghost use Rattle.expr_judge.specs.Rows.{row_kept, row_seen};
ghost use Rattle.node_facts.specs.Facts.{IsKnownFact, IsKnownNodeFact};
ghost use Rattle.node_facts.specs.declared.fact.NodeFact.TheVariants as facts;
ghost use Rattle.node_surroundings.specs.Seen.{want_seen};
ghost use Rattle.whole_rows.specs.Rows.{is_for_value};

use c_types::Types;
use expr_judge::{NodeRow, fact_of};
use expression_rows::{Row, RowFailures};
use node_facts::{ExpressionFact, NodeFact};
use node_surroundings::Want;
use whole_rows::judge_loaded;

/// Whether a value is wanted.
pub fn is_for_value(want: Want) -> bool
    ensures { result ≡ is_for_value (want_seen want) }
{
    match want {
        Want::ForValue => true,
        _ => false,
    }
}

// Of a node of which this is known.
fn loaded_expression(
    types: &Types,
    token: u32,
    is_valued: bool,
    row: NodeRow,
    mut expression: ExpressionFact,
) -> NodeRow
    requires known { IsKnownFact types.now expression }
    requires fact { row.fact ≡ facts.Expression expression }
    ensures row { (want : meaning.Want) (stands : Stands) → is_for_value want ≡ is_valued → row_seen types.now row ≡ row_kept stands → row_seen types.now result ≡ row_kept (row_loaded (told_in types.now) token want (row_with_constant None stands)) }
    ensures known { IsKnownNodeFact types.now result.fact }
{
    expression.node.value.constant = None;
    let judged = judge_loaded(
        types,
        token,
        is_valued,
        Row {
            fact: Some(expression),
            broken: row.broken,
            failures: RowFailures::none(),
        },
    );
    NodeRow {
        fact: fact_of(judged.fact),
        broken: judged.broken,
        passed: row.passed,
    }
}

/// The row of a node at this token that has no constant, and whose value is wanted or not, by the row that it has by itself. It takes
/// no memory, and a few steps.
pub fn as_loaded(types: &Types, token: u32, is_valued: bool, row: NodeRow) -> NodeRow
    requires { IsKnownNodeFact types.now row.fact }
    ensures row { (want : meaning.Want) (stands : Stands) → is_for_value want ≡ is_valued → row_seen types.now row ≡ row_kept stands → row_seen types.now result ≡ row_kept (row_loaded (told_in types.now) token want (row_with_constant None stands)) }
    ensures known { IsKnownNodeFact types.now result.fact }
{
    match row.fact {
        NodeFact::Expression(expression) => {
            loaded_expression(types, token, is_valued, row, expression)
        }
        _ => row,
    }
}
