// The steps of `__builtin_offsetof`, one designator behind the other (C11 7.19 p3). The row behind them isn't known here.
ghost use Rattle.std.specs.Prelude.{◌≡◌, ◌∷◌, ◌++◌, [], All, IfOk, IfSome, List, OnOk, Some, option_map};
ghost use Rattle.sparse_model.specs.declared.failure.Failure.{Failure as Found};
ghost use Rattle.meaning_rules.specs.Rules.{lesser as least_of};
ghost use Rattle.meaning_typing.specs.OffsetRows as meaning;
ghost use Rattle.meaning_typing.specs.Units.{node_at as node_of};
ghost use Rattle.decl_judge.specs.Units.{handles_of, nodes_of};
ghost use Rattle.expression_rows.specs.Arguments.{Appends, listed_failure};
ghost use Rattle.expression_rows.specs.Rows.{broken_seen};
ghost use Rattle.member_rows.specs.Aggregates.{aggregates_in};
ghost use Rattle.member_rows.specs.Steps.{IsKnownOffsetStep, IsKnownReached, IsWalked, reached_seen, step_seen, walk_told};
ghost use Rattle.node_facts.specs.Facts.{IsKnownNodeFact, name_seen, nodes_seen};
ghost use Rattle.node_facts.specs.Growing.{TypesJoin};
ghost use Rattle.whole_judge.specs.Known.{AreKnownBodies};
ghost use Rattle.whole_judge.specs.Walks.{HasWalked, element_of, left_from, step_at, steps_behind, whole_walk};

use c_tree::{Handle, Unit};
use c_types::Types;
use decl_judge::{child_at, kind_at, node_at, token_at};
use expr_judge::{append, operand_at};
use expression_rows::{Broken, lesser};
use member_rows::{OffsetStep, Reached, step_to_element, step_to_member};
use node_facts::NodeFacts;
use sparse_model::{FailureList, NameId, NodeKind};
use std::alloc::AllocError;
use tag_list::TagList;

/// What the steps so far have found, but for the rules that fail.
#[derive(Clone, Copy)]
pub struct Walked {
    /// Where they have led; nowhere behind a broken one.
    pub reached: Option<Reached>,
    /// The least constraint that they break.
    pub broken: Option<Broken>,
}

// The name that the node with this handle holds.
fn name_at(unit: &Unit, handle: Handle) -> NameId
    requires { unit.now.first ≡ 0 }
    ensures { name_seen result ≡ (node_of (nodes_of unit.now) handle).name }
{
    match node_at(unit, handle) {
        Some(node) => node.name,
        None => NameId(0),
    }
}

// To an element, whose index is the first part of its designator.
fn element_step(
    unit: &Unit,
    types: &mut Types,
    facts: &NodeFacts,
    designator: Handle,
    reached: Reached,
) -> Result<OffsetStep, AllocError>
    requires whole { unit.now.first ≡ 0 }
    requires ids { All (IsKnownNodeFact types.old) facts.now }
    requires bodies { AreKnownBodies types.old }
    requires reached { IsKnownReached types.old reached }
    ensures step { IfOk result (λ step. step_seen types.new step ≡ walk_told (meaning.step_to (aggregates_in types.old) (reached_seen types.old reached) (element_of (nodes_of unit.now) (nodes_seen types.old facts.now) designator))) }
    ensures known { IfOk result (IsKnownOffsetStep types.new) }
    ensures keeps { OnOk result (TypesJoin types.old types.new) }
{
    let child = child_at(unit, designator, 0);
    let index = operand_at(types, facts, child)?;
    let token = token_at(unit, designator);
    let standing = token_at(unit, child);
    Ok(step_to_element(types, token, standing, index, reached))
}

// The step that a designator makes from here.
fn step_of(
    unit: &Unit,
    types: &mut Types,
    facts: &NodeFacts,
    designator: Handle,
    reached: Reached,
) -> Result<OffsetStep, AllocError>
    requires whole { unit.now.first ≡ 0 }
    requires ids { All (IsKnownNodeFact types.old) facts.now }
    requires bodies { AreKnownBodies types.old }
    requires reached { IsKnownReached types.old reached }
    ensures step { IfOk result (λ step. step_seen types.new step ≡ walk_told (meaning.step_to (aggregates_in types.old) (reached_seen types.old reached) (step_at (nodes_of unit.now) (nodes_seen types.old facts.now) designator))) }
    ensures known { IfOk result (IsKnownOffsetStep types.new) }
    ensures keeps { OnOk result (TypesJoin types.old types.new) }
{
    match kind_at(unit, designator) {
        NodeKind::MemberDesignator => {
            let name = name_at(unit, designator);
            Ok(step_to_member(types, token_at(unit, designator), name, reached))
        }
        _ => element_step(unit, types, facts, designator, reached),
    }
}

// Takes over one step more. The rule that fails at it is appended.
fn add_step(
    found: &mut FailureList,
    least: Option<Broken>,
    step: OffsetStep,
) -> Result<Walked, AllocError>
    ensures broken { IfOk result (λ walked. option_map broken_seen walked.broken ≡ least_of (option_map broken_seen least) (option_map broken_seen step.broken)) }
    ensures reached { IfOk result (λ walked. walked.reached ≡ step.reached) }
    ensures failures { OnOk result (found.new ≡ found.old ++ listed_failure step.failure) }
{
    append(found, step.failure)?;
    Ok(Walked {
        reached: step.reached,
        broken: lesser(least, step.broken),
    })
}

// The step of a designator, from here.
fn step_on(
    unit: &Unit,
    types: &mut Types,
    facts: &NodeFacts,
    found: &mut FailureList,
    designator: Handle,
    least: Option<Broken>,
    reached: Reached,
) -> Result<Walked, AllocError>
    requires whole { unit.now.first ≡ 0 }
    requires ids { All (IsKnownNodeFact types.old) facts.now }
    requires bodies { AreKnownBodies types.old }
    requires reached { IsKnownReached types.old reached }
    ensures walked { (before : List Found) (rest : List meaning.OffsetStep) (all : meaning.Walk) → HasWalked types.old before found.old least (left_from (aggregates_in types.old) types.old (step_at (nodes_of unit.now) (nodes_seen types.old facts.now) designator ∷ rest) (Some reached)) all → IfOk result (λ walked. HasWalked types.new before found.new walked.broken (left_from (aggregates_in types.old) types.new rest walked.reached) all) }
    ensures known { IfOk result (λ walked. IfSome walked.reached (IsKnownReached types.new)) }
    ensures keeps { OnOk result (TypesJoin types.old types.new) }
{
    let step = step_of(unit, types, facts, designator, reached)?;
    let walked = add_step(found, least, step)?;
    Ok(walked)
}

// The same from where the steps so far have led, if they have led somewhere.
fn go_on(
    unit: &Unit,
    types: &mut Types,
    facts: &NodeFacts,
    found: &mut FailureList,
    designator: Handle,
    walked: Walked,
) -> Result<Walked, AllocError>
    requires whole { unit.now.first ≡ 0 }
    requires ids { All (IsKnownNodeFact types.old) facts.now }
    requires bodies { AreKnownBodies types.old }
    requires reached { IfSome walked.reached (IsKnownReached types.old) }
    ensures walked { (before : List Found) (rest : List meaning.OffsetStep) (all : meaning.Walk) → HasWalked types.old before found.old walked.broken (left_from (aggregates_in types.old) types.old (step_at (nodes_of unit.now) (nodes_seen types.old facts.now) designator ∷ rest) walked.reached) all → IfOk result (λ more. HasWalked types.new before found.new more.broken (left_from (aggregates_in types.old) types.new rest more.reached) all) }
    ensures known { IfOk result (λ more. IfSome more.reached (IsKnownReached types.new)) }
    ensures keeps { OnOk result (TypesJoin types.old types.new) }
{
    match walked.reached {
        None => Ok(walked),
        Some(reached) => step_on(
            unit,
            types,
            facts,
            found,
            designator,
            walked.broken,
            reached,
        ),
    }
}

// The steps of the designators behind the first child, from where the first step has led.
fn walk_on(
    unit: &Unit,
    types: &mut Types,
    facts: &NodeFacts,
    found: &mut FailureList,
    children: &TagList,
    begun: Walked,
) -> Result<Walked, AllocError>
    requires whole { unit.now.first ≡ 0 }
    requires ids { All (IsKnownNodeFact types.old) facts.now }
    requires bodies { AreKnownBodies types.old }
    requires begun { IfSome begun.reached (IsKnownReached types.old) }
    ensures walked { (before : List Found) (all : meaning.Walk) → HasWalked types.old before found.old begun.broken (left_from (aggregates_in types.old) types.old (steps_behind (nodes_of unit.now) (nodes_seen types.old facts.now) (handles_of children.now)) begun.reached) all → IfOk result (λ walked. HasWalked types.new before found.new walked.broken (left_from (aggregates_in types.old) types.new [] walked.reached) all) }
    ensures keeps { OnOk result (TypesJoin types.old types.new) }
{
    let mut walked = begun;
    let mut others = children.iter();
    let _named = others.next();
    for (designator, _) in others {
        walked = go_on(unit, types, facts, found, designator, walked)?;
    }
    Ok(walked)
}

/// What a first step and those of the designators behind the first child find. The rules that fail are appended. It takes a few steps
/// for each designator.
pub fn walk_along(
    unit: &Unit,
    types: &mut Types,
    facts: &NodeFacts,
    found: &mut FailureList,
    children: &TagList,
    first: OffsetStep,
) -> Result<Walked, AllocError>
    requires whole { unit.now.first ≡ 0 }
    requires ids { All (IsKnownNodeFact types.old) facts.now }
    requires bodies { AreKnownBodies types.old }
    requires first { IsKnownOffsetStep types.old first }
    ensures walked { (step : meaning.OffsetStep) (reached : meaning.Reached) → step_seen types.old first ≡ walk_told (meaning.step_to (aggregates_in types.old) reached step) → IfOk result (λ walked. IsWalked types.new walked.broken walked.reached (whole_walk (aggregates_in types.old) step (steps_behind (nodes_of unit.now) (nodes_seen types.old facts.now) (handles_of children.now)) reached)) }
    ensures failures { (step : meaning.OffsetStep) (reached : meaning.Reached) → step_seen types.old first ≡ walk_told (meaning.step_to (aggregates_in types.old) reached step) → OnOk result (Appends types.new found.old found.new (whole_walk (aggregates_in types.old) step (steps_behind (nodes_of unit.now) (nodes_seen types.old facts.now) (handles_of children.now)) reached).failures) }
    ensures keeps { OnOk result (TypesJoin types.old types.new) }
{
    let begun = add_step(found, None, first)?;
    let walked = walk_on(unit, types, facts, found, children, begun)?;
    Ok(walked)
}
