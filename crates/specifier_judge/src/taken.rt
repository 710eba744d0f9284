// Rows as rows of nodes: those of tags, of structures and unions, and of enumerations in. Which node one is of isn't known here.
ghost use Rattle.std.specs.Prelude.{◌≡◌, option_map};
ghost use Rattle.c_types.specs.Table.{TypeTable};
ghost use Rattle.expr_judge.specs.Rows.{row_seen};
ghost use Rattle.expression_rows.specs.Rows.{broken_seen};
ghost use Rattle.node_facts.specs.Facts.{IsKnownNodeFact};
ghost use Rattle.specifier_judge.specs.Rows.{aggregate_taken, enum_taken, kept_tagged, tag_taken};

use aggregate_rows::AggregateRow;
use enum_rows::EnumRow;
use expr_judge::NodeRow;
use expression_rows::{Broken, lesser};
use node_facts::NodeFact;
use tag_rows::TagRow;

/// No limit is passed by specifiers.
pub fn take_tag(row: TagRow) -> NodeRow
    ensures { result ≡ tag_taken row }
{
    NodeRow {
        fact: row.fact,
        broken: row.broken,
        passed: None,
    }
}

pub fn take_aggregate(row: AggregateRow) -> NodeRow
    ensures { result ≡ aggregate_taken row }
{
    NodeRow {
        fact: row.fact,
        broken: row.broken,
        passed: row.passed,
    }
}

/// Nor by enumerations; the failure is appended by who calls.
pub fn take_enumeration(row: EnumRow) -> NodeRow
    ensures { result ≡ enum_taken row }
{
    NodeRow {
        fact: row.fact,
        broken: row.broken,
        passed: None,
    }
}

/// A row at whose tag this is broken, if something is: then nothing is known.
pub fn with_tag(broken: Option<Broken>, row: NodeRow) -> NodeRow
    ensures seen { (table : TypeTable) → row_seen table result ≡ kept_tagged (option_map broken_seen broken) (row_seen table row) }
    ensures known { (table : TypeTable) → IsKnownNodeFact table row.fact → IsKnownNodeFact table result.fact }
{
    match broken {
        None => row,
        Some(_) => NodeRow {
            fact: NodeFact::Unknown,
            broken: lesser(broken, row.broken),
            passed: row.passed,
        },
    }
}
