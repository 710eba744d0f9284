// Whether switches are written before the labels in their bodies: what stands above each node goes in.
ghost use Rattle.std.specs.Prelude.{◌≡◌, true, List};
ghost use Rattle.meaning_typing.specs.Surroundings.{Surrounding};
ghost use Rattle.decl_judge.specs.Units.{nodes_of};
ghost use Rattle.statement_judge.specs.Later.{SwitchValuesStandBefore};
ghost use Rattle.statement_judge.specs.Nesting.{IsNestingOf};
ghost use Rattle.type_judge.specs.Order.{StandsBehindValue};

use c_tree::{Handle, Unit};
use decl_judge::child_at;
use statement_judge::Nesting;

// Whether a node that stands in the body of a switch stands behind the value of the switch.
fn stands_behind_value(unit: &Unit, nesting: &Nesting, handle: Handle) -> bool
    requires whole { unit.now.first ≡ 0 }
    ensures { (surroundings : List Surrounding) → IsNestingOf (nodes_of unit.now) surroundings nesting.now → result ≡ true → StandsBehindValue (nodes_of unit.now) surroundings handle }
{
    match nesting.above(handle).switch {
        Some(switch) => child_at(unit, switch, 0) < handle,
        None => true,
    }
}

/// Whether each node in the body of a switch stands behind the value of that switch (C11 6.8.4.2 p1). In a unit that was read all do. It
/// takes a few steps for each node.
pub fn switch_values_stand_before(unit: &Unit, nesting: &Nesting) -> bool
    requires whole { unit.now.first ≡ 0 }
    ensures { (surroundings : List Surrounding) → IsNestingOf (nodes_of unit.now) surroundings nesting.now → result ≡ true → SwitchValuesStandBefore (nodes_of unit.now) surroundings }
{
    for handle in 0..unit.len() {
        if !stands_behind_value(unit, nesting, handle) {
            return false;
        }
    }
    true
}
