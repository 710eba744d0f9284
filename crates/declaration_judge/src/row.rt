// Rows as they are made: of what they break the least, and what is broken besides.
ghost use Rattle.std.specs.Prelude.{◌≡◌, option_map};
ghost use Rattle.c_types.specs.Table.{TypeTable};
ghost use Rattle.expr_judge.specs.Rows.{row_seen};
ghost use Rattle.expression_rows.specs.Rows.{broken_seen};
ghost use Rattle.node_facts.specs.Facts.{IsKnownNodeFact};
ghost use Rattle.declaration_judge.specs.Rows.{broken_row, kept_and};

use expr_judge::NodeRow;
use expression_rows::{Broken, lesser};
use node_facts::NodeFact;

/// Nothing is known, and this is broken, if something is.
pub fn breaks(broken: Option<Broken>) -> NodeRow
    ensures { result ≡ broken_row broken }
{
    NodeRow {
        fact: NodeFact::Unknown,
        broken,
        passed: None,
    }
}

/// A row that breaks this besides, if something is broken: then nothing is known.
pub fn and_breaks(row: NodeRow, broken: Option<Broken>) -> NodeRow
    ensures seen { (table : TypeTable) → row_seen table result ≡ kept_and (row_seen table row) (option_map broken_seen broken) }
    ensures known { (table : TypeTable) → IsKnownNodeFact table row.fact → IsKnownNodeFact table result.fact }
{
    match broken {
        None => row,
        Some(_) => NodeRow {
            fact: NodeFact::Unknown,
            broken: lesser(row.broken, broken),
            passed: row.passed,
        },
    }
}
