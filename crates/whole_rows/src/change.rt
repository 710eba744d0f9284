// Operators that change a place, and so load it too: compound assignments, `++` and `--` (C11 6.5.2.4, 6.5.3.1, 6.5.16.2).
ghost use Rattle.std.specs.Prelude.{◌≡◌, IfOk, IfSome, OnOk, Some, option_map};
ghost use Rattle.c_types.specs.Layouts.{told_in};
ghost use Rattle.expression_rows.specs.Facts.{IsValued, valued_part, valued_seen};
ghost use Rattle.expression_rows.specs.Rows.{IsKnownRow, broken_row, broken_seen, no_failures, row_seen, told};
ghost use Rattle.meaning_rules.specs.Rules.{least_broken};
ghost use Rattle.meaning_typing.specs.Facts.{Expression};
ghost use Rattle.meaning_typing.specs.Wholes.{whole_compound_row, whole_step_before_row, whole_step_behind_row};
ghost use Rattle.member_rows.specs.Aggregates.{aggregates_in};
ghost use Rattle.node_facts.specs.Growing.{TypesJoin};
ghost use Rattle.whole_rows.specs.ConstAggregates.{AreConst};
ghost use Rattle.whole_rows.specs.Rows.{changed_broken};

use crate::const_aggregates::ConstAggregates;
use crate::incomplete::is_incomplete_place;
use crate::store::valued_stored;
use c_types::Types;
use expression_rows::{
    BinaryTokens, Broken, Row, RowFailures, Valued, broken_at, judge_compound, judge_step_before,
    judge_step_behind, lesser, place_broken,
};
use sparse_model::ErrorKind;
use std::alloc::AllocError;
use vocabulary::Operator;

// An incomplete place is told at its own token, and at the operator whether it may be written.
#[tactic(auto, using(expression_rows::proofs::LeastLemmas::least_both))]
fn place_changed(types: &Types, token: u32, standing: u32, place: Valued) -> Option<Broken>
    requires { IsValued types.now place }
    ensures { option_map broken_seen result ≡ least_broken (changed_broken (told_in types.now) token standing (Expression (valued_seen types.now place))) }
{
    if is_incomplete_place(types, place.fact) {
        lesser(
            place_broken(types, token, place),
            broken_at(ErrorKind::IncompleteType, standing),
        )
    } else {
        None
    }
}

// The same of a part of which something may be known.
fn changed_broken(types: &Types, token: u32, standing: u32, part: Option<Valued>) -> Option<Broken>
    requires { IfSome part (IsValued types.now) }
    ensures { option_map broken_seen result ≡ least_broken (changed_broken (told_in types.now) token standing (valued_part types.now part)) }
{
    match part {
        None => None,
        Some(place) => place_changed(types, token, standing, place),
    }
}

// Nothing but this is told.
fn told_alone(broken: Broken) -> Row
    ensures { result ≡ broken_row (Some broken) no_failures }
{
    Row::breaks(Some(broken), RowFailures::none())
}

/// The row of a compound assignment, whose sides stand at their own tokens. Of an incomplete place that is told, and whether it may
/// be written. It takes a few steps.
pub fn judge_whole_compound(
    types: &mut Types,
    consts: &ConstAggregates,
    op: Operator,
    at: BinaryTokens,
    left: Option<Valued>,
    right: Option<Valued>,
) -> Result<Row, AllocError>
    requires consts { AreConst types.old consts.now }
    requires left { IfSome left (IsValued types.old) }
    requires right { IfSome right (IsValued types.old) }
    ensures row { IfOk result (λ row. row_seen types.new row ≡ told (whole_compound_row (aggregates_in types.old) op at.token at.first at.second (valued_part types.old left) (valued_part types.old right))) }
    ensures known { IfOk result (IsKnownRow types.new) }
    ensures keeps { OnOk result (TypesJoin types.old types.new) }
{
    match changed_broken(types, at.token, at.first, left) {
        Some(broken) => Ok(told_alone(broken)),
        None => {
            let stored = valued_stored(types, consts, left);
            judge_compound(types, op, at, stored, right)
        }
    }
}

/// The row of `++` or `--` at this token, before its operand, which stands at its own. Of an incomplete place that is told, and
/// whether it may be written. It takes a few steps.
pub fn judge_whole_step_before(
    types: &mut Types,
    consts: &ConstAggregates,
    op: Operator,
    token: u32,
    standing: u32,
    operand: Option<Valued>,
) -> Result<Row, AllocError>
    requires consts { AreConst types.old consts.now }
    requires operand { IfSome operand (IsValued types.old) }
    ensures row { IfOk result (λ row. row_seen types.new row ≡ told (whole_step_before_row (aggregates_in types.old) op token standing (valued_part types.old operand))) }
    ensures known { IfOk result (IsKnownRow types.new) }
    ensures keeps { OnOk result (TypesJoin types.old types.new) }
{
    match changed_broken(types, token, standing, operand) {
        Some(broken) => Ok(told_alone(broken)),
        None => {
            let stored = valued_stored(types, consts, operand);
            judge_step_before(types, op, token, standing, stored)
        }
    }
}

/// The same behind its operand.
pub fn judge_whole_step_behind(
    types: &mut Types,
    consts: &ConstAggregates,
    op: Operator,
    token: u32,
    standing: u32,
    operand: Option<Valued>,
) -> Result<Row, AllocError>
    requires consts { AreConst types.old consts.now }
    requires operand { IfSome operand (IsValued types.old) }
    ensures row { IfOk result (λ row. row_seen types.new row ≡ told (whole_step_behind_row (aggregates_in types.old) op token standing (valued_part types.old operand))) }
    ensures known { IfOk result (IsKnownRow types.new) }
    ensures keeps { OnOk result (TypesJoin types.old types.new) }
{
    match changed_broken(types, token, standing, operand) {
        Some(broken) => Ok(told_alone(broken)),
        None => {
            let stored = valued_stored(types, consts, operand);
            judge_step_behind(types, op, token, standing, stored)
        }
    }
}
