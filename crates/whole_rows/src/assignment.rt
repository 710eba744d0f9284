// Assignments (C11 6.5.16.1).
ghost use Rattle.std.specs.Prelude.{◌≡◌, IfOk, IfSome, OnOk};
ghost use Rattle.expression_rows.specs.Facts.{IsKnownPart, IsValued, part_seen, valued_part};
ghost use Rattle.expression_rows.specs.Rows.{IsKnownRow, row_seen, told};
ghost use Rattle.meaning_typing.specs.Wholes.{whole_assignment_row};
ghost use Rattle.member_rows.specs.Aggregates.{aggregates_in};
ghost use Rattle.node_facts.specs.Growing.{TypesJoin};
ghost use Rattle.whole_rows.specs.ConstAggregates.{AreConst};

use crate::const_aggregates::ConstAggregates;
use crate::incomplete::{and_breaks, incomplete_at};
use crate::store::part_stored;
use c_types::Types;
use expression_rows::{Row, Valued, judge_assignment};
use node_facts::ExpressionFact;
use std::alloc::AllocError;

/// The row of an assignment at this token, whose right side stands at its own: the place that is stored to is complete, which is
/// told at the operator, and has no const member. It takes the steps of that of `expression_rows`, and a few.
pub fn judge_whole_assignment(
    types: &mut Types,
    consts: &ConstAggregates,
    token: u32,
    standing: u32,
    left: Option<ExpressionFact>,
    right: Option<Valued>,
) -> Result<Row, AllocError>
    requires consts { AreConst types.old consts.now }
    requires left { IsKnownPart types.old left }
    requires right { IfSome right (IsValued types.old) }
    ensures row { IfOk result (λ row. row_seen types.new row ≡ told (whole_assignment_row (aggregates_in types.old) token standing (part_seen types.old left) (valued_part types.old right))) }
    ensures known { IfOk result (IsKnownRow types.new) }
    ensures keeps { OnOk result (TypesJoin types.old types.new) }
{
    let incomplete = incomplete_at(types, token, left);
    let stored = part_stored(types, consts, left);
    let row = judge_assignment(types, token, standing, stored, right)?;
    Ok(and_breaks(row, incomplete))
}
