// Subscripts (C11 6.5.2.1).
ghost use Rattle.std.specs.Prelude.{◌≡◌, IfSome, option_map};
ghost use Rattle.c_types.specs.Layouts.{told_in};
ghost use Rattle.expression_rows.specs.Facts.{IsKnownPart, IsValued, part_seen, valued_part};
ghost use Rattle.expression_rows.specs.Rows.{IsKnownRow, broken_seen, row_seen, told};
ghost use Rattle.meaning_rules.specs.Rules.{least_broken};
ghost use Rattle.meaning_typing.specs.Wholes as meaning;

use crate::incomplete::{and_breaks, sized_broken};
use c_types::Types;
use expression_rows::{Broken, Row, SubscriptTokens, Valued, judge_subscript};
use node_facts::ExpressionFact;

// An element has a size.
fn element_broken(types: &Types, token: u32, part: Option<ExpressionFact>) -> Option<Broken>
    requires { IsKnownPart types.now part }
    ensures { option_map broken_seen result ≡ least_broken (meaning.element_broken (told_in types.now) token (part_seen types.now part)) }
{
    match part {
        None => None,
        Some(element) => sized_broken(types, token, element.node.of),
    }
}

/// The row of a subscript: the element has a size, to which a pointer is moved. It takes no memory, and a few steps.
pub fn judge_whole_subscript(
    types: &Types,
    at: SubscriptTokens,
    left: Option<Valued>,
    right: Option<Valued>,
) -> Row
    requires left { IfSome left (IsValued types.now) }
    requires right { IfSome right (IsValued types.now) }
    ensures row { row_seen types.now result ≡ told (meaning.whole_subscript_row (told_in types.now) at.token at.first at.second (valued_part types.now left) (valued_part types.now right)) }
    ensures known { IsKnownRow types.now result }
{
    let row = judge_subscript(types, at, left, right);
    let broken = element_broken(types, at.token, row.fact);
    and_breaks(row, broken)
}
