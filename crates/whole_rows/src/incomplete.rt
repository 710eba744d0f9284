// Types without a size, and what they break besides a row. Which expression a row is of isn't known here.
ghost use Rattle.std.specs.Prelude.{◌≡◌, Some, option_map};
ghost use Rattle.c_types.specs.Layouts.{told_in};
ghost use Rattle.c_types.specs.Table.{TypeTable, IsTypeId, type_at};
ghost use Rattle.expression_rows.specs.Facts.{IsKnownPart, part_seen};
ghost use Rattle.expression_rows.specs.Rows.{IsKnownRow, broken_seen, row_seen};
ghost use Rattle.meaning_rules.specs.Rules.{least_broken};
ghost use Rattle.meaning_typing.specs.Wholes as meaning;
ghost use Rattle.node_facts.specs.Facts.{IsKnownFact, fact_seen};
ghost use Rattle.whole_rows.specs.Rows.{told_and};

use c_types::Types;
use expression_rows::{Broken, Row, broken_at, has_no_size, is_loaded, lesser};
use node_facts::ExpressionFact;
use sparse_model::{ErrorKind, TypeId};

/// A type without a size is told at this token.
pub fn sized_broken(types: &Types, token: u32, t: TypeId) -> Option<Broken>
    requires { IsTypeId types.now t }
    ensures { option_map broken_seen result ≡ least_broken (meaning.sized_broken (told_in types.now) token (type_at types.now t)) }
{
    if has_no_size(types, t) {
        broken_at(ErrorKind::IncompleteType, token)
    } else {
        None
    }
}

/// Whether it is a place of a type without a size; arrays and functions aren't taken whole, and void is none.
pub fn is_incomplete_place(types: &Types, expression: ExpressionFact) -> bool
    requires { IsKnownFact types.now expression }
    ensures { result ≡ meaning.is_incomplete_place (told_in types.now) (fact_seen types.now expression) }
{
    is_loaded(types, expression) && has_no_size(types, expression.node.of)
}

// It is told at this token.
fn incomplete_place(types: &Types, token: u32, expression: ExpressionFact) -> Option<Broken>
    requires { IsKnownFact types.now expression }
    ensures { option_map broken_seen result ≡ least_broken (meaning.incomplete_at (told_in types.now) token (part_seen types.now (Some expression))) }
{
    if is_incomplete_place(types, expression) {
        broken_at(ErrorKind::IncompleteType, token)
    } else {
        None
    }
}

/// The same of a part of which something may be known.
pub fn incomplete_at(types: &Types, token: u32, part: Option<ExpressionFact>) -> Option<Broken>
    requires { IsKnownPart types.now part }
    ensures { option_map broken_seen result ≡ least_broken (meaning.incomplete_at (told_in types.now) token (part_seen types.now part)) }
{
    match part {
        None => None,
        Some(expression) => incomplete_place(types, token, expression),
    }
}

/// A row that breaks this besides, so that nothing is known.
pub fn and_breaks(row: Row, broken: Option<Broken>) -> Row
    ensures seen { (table : TypeTable) → row_seen table result ≡ told_and (row_seen table row) (option_map broken_seen broken) }
    ensures known { (table : TypeTable) → IsKnownRow table row → IsKnownRow table result }
{
    match broken {
        None => row,
        Some(broken) => Row {
            fact: None,
            broken: lesser(row.broken, Some(broken)),
            failures: row.failures,
        },
    }
}
