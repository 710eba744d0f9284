// What the row of a node says.
ghost use Rattle.std.specs.Prelude.{◌≡◌, ◌++◌, IfOk, OnOk};
ghost use Rattle.expression_rows.specs.Arguments.{listed_failure};
ghost use Rattle.expr_judge.specs.Rows.{fact_of_part, known_row, listed_failures, node_row};

use expression_rows::{Broken, Row};
use node_facts::{ExpressionFact, NodeFact};
use sparse_model::{Failure, FailureList};
use std::alloc::AllocError;

/// What the row of a node says, but for the failures, which are appended to a list.
#[derive(Clone, Copy)]
pub struct NodeRow {
    /// What is known of the node.
    pub fact: NodeFact,
    /// Of the constraints that it breaks the least, by the token and then by the number of the error.
    pub broken: Option<Broken>,
    /// The least token at which it passes the limit of the size of an object.
    pub passed: Option<u32>,
}

impl NodeRow {
    /// This is types, facts, and nothing is said.
    pub fn known(fact: NodeFact) -> NodeRow
        ensures { result ≡ known_row fact }
    {
        NodeRow {
            fact,
            broken: None,
            passed: None,
        }
    }
}

/// Appends a failure, if there is one.
pub fn append(found: &mut FailureList, failure: Option<Failure>) -> Result<(), AllocError>
    ensures { OnOk result (found.new ≡ found.old ++ listed_failure failure) }
{
    if let Some(failure) = failure
        && let Err((fault, _)) = found.push(failure)
    {
        return Err(fault);
    }
    Ok(())
}

/// What is known of an expression, if something is.
pub fn fact_of(part: Option<ExpressionFact>) -> NodeFact
    ensures { result ≡ fact_of_part part }
{
    match part {
        Some(expression) => NodeFact::Expression(expression),
        None => NodeFact::Unknown,
    }
}

/// Takes over the row of an expression or a statement, whose failures are appended.
pub fn take_row(row: Row, found: &mut FailureList) -> Result<NodeRow, AllocError>
    ensures row { IfOk result (λ taken. taken ≡ node_row row) }
    ensures failures { OnOk result (found.new ≡ found.old ++ listed_failures row.failures) }
{
    append(found, row.failures.first)?;
    append(found, row.failures.second)?;
    Ok(NodeRow {
        fact: fact_of(row.fact),
        broken: row.broken,
        passed: None,
    })
}
