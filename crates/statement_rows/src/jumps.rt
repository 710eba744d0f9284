// `break`, `continue`, labels and `goto` (C11 6.8.1 p3, 6.8.6), by what they belong to, which isn't known here.
ghost use Rattle.std.specs.Prelude.{◌≡◌, [], Some, option_map};
ghost use Rattle.meaning_rules.specs.Rules.{least_broken};
ghost use Rattle.meaning_statements.specs.StatementRows.{jump_to};
ghost use Rattle.meaning_statements.specs.Statements as meaning;
ghost use Rattle.c_types.specs.Table.{TypeTable};
ghost use Rattle.node_facts.specs.Facts.{name_seen};
ghost use Rattle.expression_rows.specs.Rows.{IsKnownRow, broken_seen, row_seen, told};

use crate::labels::later;
use expression_rows::{Broken, Row, RowFailures, broken_at};
use sparse_model::{ErrorKind, NameId};

/// The row of a `break` or a `continue` at this token, by the loop or the switch that it leaves or goes on with, if there is one. It takes
/// a few steps.
pub fn judge_jump(token: u32, target: Option<u32>) -> Row
    ensures row { (table : TypeTable) → row_seen table result ≡ told (meaning.jump_row token target) }
    ensures known { (table : TypeTable) → IsKnownRow table result }
{
    match target {
        None => Row::breaks(
            broken_at(ErrorKind::JumpOutsideLoop, token),
            RowFailures::none(),
        ),
        Some(_) => Row::nothing(),
    }
}

fn broken_named(constraint: ErrorKind, token: u32, name: NameId) -> Option<Broken>
    ensures { result ≡ Some (record { constraint = constraint; token = token; name = name }) }
{
    Some(Broken {
        constraint,
        token,
        name,
    })
}

/// The row of a label at this token, by the token of the earliest label of its name that was read before it in its function. It takes a
/// few steps.
pub fn judge_label(token: u32, name: NameId, earliest: Option<u32>) -> Row
    ensures row { (table : TypeTable) → row_seen table result ≡ told (meaning.label_row token (name_seen name) earliest) }
    ensures known { (table : TypeTable) → IsKnownRow table result }
{
    match earliest {
        None => Row::nothing(),
        Some(other) => Row::breaks(
            broken_named(ErrorKind::LabelDefinedTwice, later(token, other), name),
            RowFailures::none(),
        ),
    }
}

fn entered(token: u32, enters: bool) -> Option<Broken>
    ensures { option_map broken_seen result ≡ least_broken (jump_to token [] (Some enters)) }
{
    if enters {
        broken_at(ErrorKind::JumpIntoStatementExpression, token)
    } else {
        None
    }
}

/// What a `goto` at this token breaks, by whether the label to which it leads stands in a statement expression that isn't around it, if
/// there is a label. It takes a few steps.
pub fn judge_goto(token: u32, name: NameId, enters: Option<bool>) -> Option<Broken>
    ensures { option_map broken_seen result ≡ least_broken (jump_to token (name_seen name) enters) }
{
    match enters {
        None => broken_named(ErrorKind::LabelIsNotDefined, token, name),
        Some(enters) => entered(token, enters),
    }
}
