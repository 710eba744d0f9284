// The rows of jumps and labels (C11 6.8.1 p3, 6.8.6), by what stands above them and what was read before them.
ghost use Rattle.std.specs.Prelude.{◌≡◌, List, option_map};
ghost use Rattle.meaning_statements.specs.Jumps as jumps;
ghost use Rattle.meaning_statements.specs.StatementRows as meaning;
ghost use Rattle.meaning_statements.specs.Statements.{jump_row};
ghost use Rattle.meaning_typing.specs.Surroundings.{Surrounding};
ghost use Rattle.meaning_typing.specs.Typing.{token_at as token_of};
ghost use Rattle.c_types.specs.Table.{TypeTable};
ghost use Rattle.decl_judge.specs.Units.{nodes_of};
ghost use Rattle.node_facts.specs.Facts.{name_seen};
ghost use Rattle.statement_judge.specs.Nesting.{IsNestingOf};
ghost use Rattle.statement_judge.specs.Rows.{Says};
ghost use Rattle.statement_rows.specs.Labels.{StandsForNamed};

use crate::nesting::Nesting;
use crate::parts::name_at;
use c_tree::{Handle, Unit};
use decl_judge::token_at;
use expression_rows::Row;
use sparse_model::NameId;
use statement_rows::{FunctionLabel, FunctionLabels, judge_jump, judge_label};

/// The row of `break`.
pub fn break_statement(unit: &Unit, nesting: &Nesting, handle: Handle) -> Row
    requires { unit.now.first ≡ 0 }
    ensures { (table : TypeTable) (surroundings : List Surrounding) → IsNestingOf (nodes_of unit.now) surroundings nesting.now → Says table table result (jump_row (token_of (nodes_of unit.now) handle) (jumps.statement_left (nodes_of unit.now) surroundings handle)) }
{
    judge_jump(token_at(unit, handle), nesting.above(handle).left)
}

/// The row of `continue`.
pub fn continue_statement(unit: &Unit, nesting: &Nesting, handle: Handle) -> Row
    requires { unit.now.first ≡ 0 }
    ensures { (table : TypeTable) (surroundings : List Surrounding) → IsNestingOf (nodes_of unit.now) surroundings nesting.now → Says table table result (jump_row (token_of (nodes_of unit.now) handle) (jumps.loop_continued (nodes_of unit.now) surroundings handle)) }
{
    judge_jump(token_at(unit, handle), nesting.above(handle).continued)
}

fn token_of_label(label: Option<FunctionLabel>) -> Option<u32>
    ensures { result ≡ option_map (λ label. label.token) label }
{
    match label {
        Some(label) => Some(label.token),
        None => None,
    }
}

// The token of the first label of this name in what labels belong to here.
fn first_token(labels: &FunctionLabels, owner: Option<Handle>, name: NameId) -> Option<u32>
    ensures { (read : List jumps.SeenLabel) → StandsForNamed labels.now read → result ≡ option_map (λ label. label.token) (jumps.label_in read owner (name_seen name)) }
{
    match owner {
        Some(owner) => token_of_label(labels.first(owner, name)),
        None => None,
    }
}

/// The row of a label, which belongs to this.
pub fn label_statement(
    unit: &Unit,
    labels: &FunctionLabels,
    handle: Handle,
    owner: Option<Handle>,
) -> Row
    requires { unit.now.first ≡ 0 }
    ensures { (table : TypeTable) (surroundings : List Surrounding) → jumps.owner_of (nodes_of unit.now) surroundings handle ≡ owner → StandsForNamed labels.now (jumps.labels_before (nodes_of unit.now) surroundings handle) → Says table table result (meaning.label_at (nodes_of unit.now) surroundings handle) }
{
    let name = name_at(unit, handle);
    let earliest = first_token(labels, owner, name);
    judge_label(token_at(unit, handle), name, earliest)
}
