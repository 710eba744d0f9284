// What turns meet, as a list of findings: in it a string that stands alone in its braces, and the items behind it, stand one by one.
ghost use Rattle.std.specs.Prelude.{◌≡◌, ℕ, All, Bool, List, OnOk};
ghost use Rattle.meaning_typing.specs.Facts.{Fact};
ghost use Rattle.meaning_initializers.specs.Plans.{extra_items, no_plan, refused};
ghost use Rattle.c_types.specs.Table.{TypeTable};
ghost use Rattle.decl_judge.specs.Units.{nodes_of};
ghost use Rattle.initializer_levels.specs.Items.{items_left};
ghost use Rattle.initializer_levels.specs.Met.{IsFindingIn, IsMetIn, found_with, met_plan};
ghost use Rattle.initializer_levels.specs.Turns.{Found, found_behind};

use crate::items::ItemList;
use crate::met::{Finding, Met};
use c_tree::Unit;
use std::alloc::AllocError;

// Items that have no place (C11 6.7.9 p2).
fn push_extra(unit: &Unit, findings: &mut Vec<Finding>, items: ItemList) -> Result<(), AllocError>
    requires { unit.now.first ≡ 0 }
    ensures found { (facts : List Fact) (is_static : Bool) (table : TypeTable) (paths : List (List ℕ)) (found : Found)
        → OnOk result (found_with (nodes_of unit.now) facts is_static table paths found findings.new.items ≡ found_behind (found_with (nodes_of unit.now) facts is_static table paths found findings.old.items) (refused (extra_items (items_left (nodes_of unit.now) facts items)) no_plan)) }
    ensures known { (table : TypeTable) (paths : List (List ℕ)) → All (IsFindingIn table paths) findings.old.items → OnOk result (All (IsFindingIn table paths) findings.new.items) }
{
    let mut items = items;
    'items: while let Some(next) = items.next(unit) {
        findings.push(Finding::Extra(next.initializer))?;
        items = items.behind();
    }
    Ok(())
}

/// Appends what a turn met. A refusal, which is want of memory, may have appended some of it.
pub fn push_met(unit: &Unit, findings: &mut Vec<Finding>, met: Met) -> Result<(), AllocError>
    requires { unit.now.first ≡ 0 }
    ensures found { (facts : List Fact) (is_static : Bool) (table : TypeTable) (paths : List (List ℕ)) (found : Found)
        → OnOk result (found_with (nodes_of unit.now) facts is_static table paths found findings.new.items ≡ found_behind (found_with (nodes_of unit.now) facts is_static table paths found findings.old.items) (met_plan (nodes_of unit.now) facts is_static table paths met)) }
    ensures known { (table : TypeTable) (paths : List (List ℕ)) → All (IsFindingIn table paths) findings.old.items → IsMetIn table paths met → OnOk result (All (IsFindingIn table paths) findings.new.items) }
{
    match met {
        Met::Nothing => Ok(()),
        Met::One(finding) => {
            findings.push(finding)?;
            Ok(())
        }
        Met::StringAlone(placed, behind) => {
            findings.push(Finding::Leaf(placed))?;
            push_extra(unit, findings, behind)
        }
    }
}
