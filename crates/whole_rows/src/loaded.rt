// Loads: a place whose value is wanted is complete (C11 6.3.2.1 p2). Which expression a row is of isn't known here.
ghost use Rattle.std.specs.Prelude.{◌≡◌, option_map};
ghost use Rattle.c_types.specs.Layouts.{told_in};
ghost use Rattle.expression_rows.specs.Facts.{IsKnownPart, part_seen};
ghost use Rattle.expression_rows.specs.Rows.{IsKnownRow, broken_seen, row_seen, told};
ghost use Rattle.meaning_rules.specs.Rules.{least_broken};
ghost use Rattle.meaning_typing.specs.Rows.{Row as Stands};
ghost use Rattle.meaning_typing.specs.Surroundings.{Want};
ghost use Rattle.meaning_typing.specs.Wholes.{row_loaded};
ghost use Rattle.whole_rows.specs.Rows.{is_for_value, loaded_if};

use crate::incomplete::{and_breaks, incomplete_at};
use c_types::Types;
use expression_rows::{Broken, Row};
use node_facts::ExpressionFact;

// What a load breaks, if the value is wanted.
fn loaded_broken(
    types: &Types,
    token: u32,
    is_valued: bool,
    part: Option<ExpressionFact>,
) -> Option<Broken>
    requires { IsKnownPart types.now part }
    ensures { option_map broken_seen result ≡ least_broken (loaded_if (told_in types.now) token is_valued (part_seen types.now part)) }
{
    if is_valued {
        incomplete_at(types, token, part)
    } else {
        None
    }
}

/// The row of an expression that stands at this token, and whose value is wanted or not, by the row that it has by itself: a place
/// that is loaded is complete, also where nothing is evaluated. It takes no memory, and a few steps.
pub fn judge_loaded(types: &Types, token: u32, is_valued: bool, row: Row) -> Row
    requires { IsKnownRow types.now row }
    ensures row { (want : Want) (stands : Stands) → is_for_value want ≡ is_valued → row_seen types.now row ≡ told stands → row_seen types.now result ≡ told (row_loaded (told_in types.now) token want stands) }
    ensures known { IsKnownRow types.now result }
{
    let broken = loaded_broken(types, token, is_valued, row.fact);
    and_breaks(row, broken)
}
