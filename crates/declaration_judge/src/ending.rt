// The end of a unit (C11 6.9.2 p2, p3), where objects that are declared only are complete.
ghost use Rattle.std.specs.Prelude.{◌≡◌, length};
ghost use Rattle.c_types.specs.Layouts.{told_in};
ghost use Rattle.decl_judge.specs.Units.{nodes_of};
ghost use Rattle.expr_judge.specs.Rows.{SaysOnly};
ghost use Rattle.node_surroundings.specs.Seen.{surroundings_seen};
ghost use Rattle.declaration_judge.specs.Kept.{IsKeptOf, facts_seen};
ghost use Rattle.declaration_judge.specs.Rows.{unit_row};

use crate::declarations::Declarations;
use crate::row::breaks;
use c_tree::{Handle, Unit};
use declaration_rows::unit_end_broken;
use expr_judge::NodeRow;
use node_surroundings::Surroundings;

/// The row of a unit, behind all its other nodes. It takes a few steps for each object that is tentative.
pub fn unit_end(
    unit: &Unit,
    surroundings: &Surroundings,
    kept: &Declarations,
    _handle: Handle,
) -> NodeRow
    requires whole { unit.now.first ≡ 0 }
    requires surroundings { length surroundings.now ≡ length unit.now.nodes }
    requires next { length kept.now.facts ≡ _handle }
    requires kept { IsKeptOf (nodes_of unit.now) (surroundings_seen surroundings.now) kept.now }
    ensures { SaysOnly kept.now.types result (unit_row (told_in kept.now.types) (nodes_of unit.now) (surroundings_seen surroundings.now) (facts_seen kept.now) _handle) }
{
    breaks(unit_end_broken(
        unit,
        surroundings,
        &kept.types,
        &kept.facts,
        &kept.linked,
        &kept.tentative,
    ))
}
