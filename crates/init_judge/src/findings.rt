// What is found of an initializer, leaf by leaf: the leaves that have a place, the least constraint that is broken, and the rules that
// fail. Which expression is for which part comes in.
ghost use Rattle.std.specs.Prelude.{◌≡◌, ◌++◌, All, IfOk, OnOk};
ghost use Rattle.decl_judge.specs.Units.{nodes_of};
ghost use Rattle.node_facts.specs.Facts.{IsKnownNodeFact, nodes_seen};
ghost use Rattle.initializer_levels.specs.Met.{IsFindingIn, found_with};
ghost use Rattle.initializer_levels.specs.Turns.{nothing_found};
ghost use Rattle.init_judge.specs.Leaves.{listed_leaf};
ghost use Rattle.init_judge.specs.Said.{HasJudged};

use crate::leaf::{Said, judge_finding};
use c_tree::Unit;
use c_types::Types;
use expression_rows::{Broken, lesser};
use initializer_levels::{Placed, Plan};
use node_facts::NodeFacts;
use sparse_model::FailureList;
use std::alloc::{AllocError, Global};

/// The leaves of an initializer, and what it breaks.
#[derive(Drop)]
pub struct JudgedLeaves {
    /// In the order in which they are written.
    pub leaves: Vec<Placed>,
    /// The least constraint that is broken.
    pub broken: Option<Broken>,
}

// Appends a leaf, if it is one.
fn push_leaf(leaves: &mut Vec<Placed>, leaf: Option<Placed>) -> Result<(), AllocError>
    ensures { OnOk result (leaves.new.items ≡ leaves.old.items ++ listed_leaf leaf) }
{
    if let Some(leaf) = leaf {
        leaves.push(leaf)?;
    }
    Ok(())
}

/// What is found of an initializer. The rules that fail at its leaves are appended. It takes a few steps for each finding.
pub fn judge_findings(
    alloc: Global,
    unit: &Unit,
    types: &mut Types,
    facts: &NodeFacts,
    is_static: bool,
    plan: &Plan,
    found: &mut FailureList,
) -> Result<JudgedLeaves, AllocError>
    requires whole { unit.now.first ≡ 0 }
    requires facts { All (IsKnownNodeFact types.old) facts.now }
    requires known { All (IsFindingIn types.old plan.now.paths) plan.now.findings.items }
    ensures { IfOk result (λ judged. HasJudged (nodes_of unit.now) (nodes_seen types.old facts.now) types.old types.new plan.now.paths found.old found.new judged.leaves.items judged.broken (found_with (nodes_of unit.now) (nodes_seen types.old facts.now) is_static types.old plan.now.paths nothing_found plan.now.findings.items)) }
{
    let mut leaves = Vec::new(alloc);
    let mut broken = None;
    let mut rest = plan.findings.as_slice();
    'findings: while let Some((finding, others)) = rest.split_first() {
        let said = judge_finding(unit, types, facts, is_static, *finding, found)?;
        push_leaf(&mut leaves, said.leaf)?;
        broken = lesser(broken, said.broken);
        rest = others;
    }
    Ok(JudgedLeaves { leaves, broken })
}
