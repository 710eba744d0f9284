// How many cells a function has, before any of them is made: what `__builtin_expect` expects stands twice where its value is tested, so
// nests of it double.
ghost use Rattle.std.specs.Prelude.{◌≡◌, ◌<◌};
ghost use Rattle.vocabulary.specs.declared.node_kind.NodeKind.TheVariants as kinds;
ghost use Rattle.meaning_tree.specs.Laid.{IsLaid};
ghost use Rattle.meaning_tree.specs.Nodes.{end_of};
ghost use Rattle.meaning_typing.specs.Units as meaning;
ghost use Rattle.meaning_control.specs.Functions.{statement_of};
ghost use Rattle.decl_judge.specs.Units.{nodes_of};
ghost use Rattle.linear_code.specs.Known.{judged_unit};
ghost use Rattle.linear_code.specs.Passed.{KnowsLists};

use crate::cells::{MOST_CELLS, stands_twice};
use crate::changes::body_of;
use crate::conditions::is_condition;
use crate::facts::ControlFacts;
use crate::passed::push_passed;
use crate::run::first_within;
use c_tree::{Handle, Unit};
use decl_judge::kind_at;
use sparse_model::NodeKind;
use std::alloc::{AllocError, Global};

// How many cells a node and those below it make: where its value isn't tested, and where it is.
#[derive(Clone, Copy)]
struct Weight {
    plain: u64,
    tested: u64,
}

// Of a node that was passed before.
fn weight_at(weights: &[Weight], first: Handle, handle: Handle, is_tested: bool) -> u64 {
    let place = handle.saturating_sub(first) as usize;
    match weights.get(place) {
        Some(weight) if is_tested => weight.tested,
        Some(weight) => weight.plain,
        None => 1,
    }
}

// Of a node over what is passed of it.
fn weight_over(
    weights: &[Weight],
    first: Handle,
    kind: NodeKind,
    is_tested: bool,
    passed: &[Handle],
) -> u64 {
    let mut sum = 1u64;
    for place in 0..passed.len() {
        let is_last = place + 1 == passed.len();
        let part_is_tested = is_condition(kind, is_tested, place, is_last);
        let own = weight_at(weights, first, passed[place], part_is_tested);
        sum = sum.saturating_add(own);
        if is_last && stands_twice(kind, is_tested, passed.len()) {
            sum = sum.saturating_add(own);
        }
    }
    sum
}

// Whether something in a body may stand twice.
fn has_expectation(unit: &Unit, first: Handle, body: Handle) -> bool
    requires whole { unit.now.first ≡ 0 }
{
    for handle in first..body {
        if matches!(kind_at(unit, handle), NodeKind::BuiltinExpect) {
            return true;
        }
    }
    false
}

/// Whether a function has no more cells than it may have. It takes a few steps for each node of the body, and no memory where nothing
/// stands twice.
///
/// # Errors
/// Want of memory.
pub fn has_few_cells<J: ControlFacts>(
    alloc: Global,
    unit: &Unit,
    facts: &J,
    function: Handle,
) -> Result<bool, AllocError>
    requires whole { unit.now.first ≡ 0 }
    requires laid { IsLaid unit.now }
    requires lists { KnowsLists (nodes_of unit.now) (J.known facts.now).facts }
    requires kind { meaning.kind_at (nodes_of unit.now) function ≡ kinds.FunctionDefinition }
    requires body { statement_of (judged_unit unit.now (J.known facts.now)) function < end_of unit.now }
{
    let body = body_of(unit, function);
    let first = first_within(unit, body);
    if !has_expectation(unit, first, body) {
        return Ok(true);
    }
    let mut weights = Vec::new(alloc);
    let mut passed = Vec::new(alloc);
    for handle in first..body {
        passed.clear();
        push_passed(&mut passed, unit, facts, handle)?;
        let kind = kind_at(unit, handle);
        weights.push(Weight {
            plain: weight_over(weights.as_slice(), first, kind, false, passed.as_slice()),
            tested: weight_over(weights.as_slice(), first, kind, true, passed.as_slice()),
        })?;
    }
    passed.clear();
    push_passed(&mut passed, unit, facts, body)?;
    let kind = kind_at(unit, body);
    let whole = weight_over(weights.as_slice(), first, kind, false, passed.as_slice());
    Ok(whole <= MOST_CELLS as u64)
}
