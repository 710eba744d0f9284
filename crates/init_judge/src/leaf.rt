// What is said of one finding of a walk over an initializer: a leaf, what it breaks, and which rule fails; or what has no place.
ghost use Rattle.std.specs.Prelude.{◌≡◌, All, IfOk, IfSome, List, ℕ};
ghost use Rattle.meaning_initializers.specs.Plans.{string_plan, value_plan};
ghost use Rattle.meaning_initializers.specs.Reading.{given_at};
ghost use Rattle.meaning_typing.specs.Facts.{Fact};
ghost use Rattle.meaning_typing.specs.Units as units;
ghost use Rattle.c_types.specs.Table.{IsTypeId, TypeTable};
ghost use Rattle.decl_judge.specs.Units.{nodes_of};
ghost use Rattle.node_facts.specs.Facts.{IsKnownNodeFact, nodes_seen};
ghost use Rattle.initializer_levels.specs.Met.{IsFindingIn, IsPlacedIn, finding_plan};
ghost use Rattle.initializer_levels.specs.Parts.{parts_in, parts_seen, type_seen};
ghost use Rattle.initializer_levels.specs.Paths.{path_at};
ghost use Rattle.init_judge.specs.Said.{HasType, Says, plan_kept, refused_at, said_seen};

use crate::strings::{elements_for, is_longer};
use crate::value::judge_value;
use c_tree::{Handle, Unit};
use c_types::Types;
use decl_judge::token_at;
use expression_rows::{Broken, broken_at};
use initializer_levels::{Finding, Parts, Placed, parts_of};
use node_facts::NodeFacts;
use sparse_model::{ErrorKind, FailureList};
use std::alloc::AllocError;

/// What is said of a finding, but for the rule that fails, which is appended to a list.
#[derive(Clone, Copy)]
pub struct Said {
    /// The expression, where it has a place.
    pub leaf: Option<Placed>,
    /// The least constraint that is broken.
    pub broken: Option<Broken>,
}

// What has no place breaks this constraint.
fn refused(unit: &Unit, constraint: ErrorKind, handle: Handle) -> Said
    requires { unit.now.first ≡ 0 }
    ensures said { (table : TypeTable) (paths : List (List ℕ)) → said_seen table paths result ≡ refused_at constraint (units.node_at (nodes_of unit.now) handle).token }
    ensures known { (table : TypeTable) (paths : List (List ℕ)) → IfSome result.leaf (IsPlacedIn table paths) }
{
    Said {
        leaf: None,
        broken: broken_at(constraint, token_at(unit, handle)),
    }
}

// A string of so many elements gives an array its own, unless it is longer.
fn judge_string(unit: &Unit, parts: Parts, elements: u64, placed: Placed) -> Said
    requires { unit.now.first ≡ 0 }
    ensures said { (table : TypeTable) (paths : List (List ℕ)) (facts : List Fact) → parts_seen table parts ≡ parts_in (type_seen table placed.of) → said_seen table paths result ≡ plan_kept (string_plan elements (type_seen table placed.of) (path_at paths placed.path) placed.is_moved (given_at (nodes_of unit.now) facts placed.initializer)) }
    ensures known { (table : TypeTable) (paths : List (List ℕ)) → IsPlacedIn table paths placed → IfSome result.leaf (IsPlacedIn table paths) }
{
    if is_longer(elements, parts) {
        refused(unit, ErrorKind::ExtraInitializer, placed.initializer)
    } else {
        Said {
            leaf: Some(placed),
            broken: None,
        }
    }
}

// An expression for a part, which takes it as a string or by its value.
fn judge_leaf(
    unit: &Unit,
    types: &mut Types,
    facts: &NodeFacts,
    is_static: bool,
    placed: Placed,
    found: &mut FailureList,
) -> Result<Said, AllocError>
    requires whole { unit.now.first ≡ 0 }
    requires facts { All (IsKnownNodeFact types.old) facts.now }
    requires part { IsTypeId types.old placed.of.of }
    ensures says { (paths : List (List ℕ)) → IfOk result (λ said. Says (nodes_of unit.now) (nodes_seen types.old facts.now) types.old types.new paths found.old found.new said (value_plan is_static (type_seen types.old placed.of) (path_at paths placed.path) placed.is_moved (given_at (nodes_of unit.now) (nodes_seen types.old facts.now) placed.initializer))) }
    ensures known { (table : TypeTable) (paths : List (List ℕ)) → IsPlacedIn table paths placed → IfOk result (λ said. IfSome said.leaf (IsPlacedIn table paths)) }
{
    let parts = parts_of(types, placed.of);
    match elements_for(unit, types, parts, placed.initializer) {
        Some(elements) => Ok(judge_string(unit, parts, elements, placed)),
        None => {
            let broken = judge_value(unit, types, facts, is_static, placed, found)?;
            Ok(Said {
                leaf: Some(placed),
                broken,
            })
        }
    }
}

/// What is said of one finding. The rule that fails at a leaf is appended. It takes a few steps.
pub fn judge_finding(
    unit: &Unit,
    types: &mut Types,
    facts: &NodeFacts,
    is_static: bool,
    finding: Finding,
    found: &mut FailureList,
) -> Result<Said, AllocError>
    requires whole { unit.now.first ≡ 0 }
    requires facts { All (IsKnownNodeFact types.old) facts.now }
    requires part { HasType types.old finding }
    ensures says { (paths : List (List ℕ)) → IfOk result (λ said. Says (nodes_of unit.now) (nodes_seen types.old facts.now) types.old types.new paths found.old found.new said (finding_plan (nodes_of unit.now) (nodes_seen types.old facts.now) is_static types.old paths finding)) }
    ensures known { (table : TypeTable) (paths : List (List ℕ)) → IsFindingIn table paths finding → IfOk result (λ said. IfSome said.leaf (IsPlacedIn table paths)) }
{
    match finding {
        Finding::Leaf(placed) => judge_leaf(unit, types, facts, is_static, placed, found),
        Finding::Extra(initializer) => {
            Ok(refused(unit, ErrorKind::ExtraInitializer, initializer))
        }
        Finding::NoPart(designator) => Ok(refused(unit, ErrorKind::BadDesignator, designator)),
    }
}
