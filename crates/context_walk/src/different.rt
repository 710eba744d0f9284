// The least point that paths reach with different counts.
ghost use Rattle.std.specs.Prelude.{◌≡◌, ◌↔◌, IfOk, IsTrue};
ghost use Rattle.std.specs.List.Sorted.{IsNonDecreasingBy};
ghost use Rattle.meaning_paths.specs.ContextRules.{IsLeast};
ghost use Rattle.context_walk.specs.Passed.{passed_seen};
ghost use Rattle.context_walk.specs.Scans.{DifferIn};
ghost use Rattle.context_walk.specs.Met.{ConflictAmong, IsConflict, mets_of, place_of};

use crate::passed::PassedStep;
use crate::scan::{least_several, lower};
use control_flow::Step;
use std::alloc::{AllocError, Global};
use step_counts::Counts;

/// A point, and the one count with which paths come to it in a block.
#[derive(Clone, Copy, Drop)]
pub struct Met {
    pub token: u32,
    pub moment: bool,
    pub count: i64,
}

impl Met {
    // Points in the order of their tokens; of two at one token the one with the flag is the second.
    fn place(self) -> u64
        ensures { result ≡ place_of self }
    {
        u64::from(self.token) * 2 + u64::from(self.moment)
    }
}

/// The least token of a point at which counts differ: within a block, or from one to another.
pub fn least_different(alloc: Global, passed: &[PassedStep]) -> Result<Option<u32>, AllocError>
    ensures { IfOk result (IsLeast (DifferIn (passed_seen passed.now))) }
{
    let mut met = points_met(alloc, passed)?;
    met.sort_unstable_by_key(|entry| entry.place());
    Ok(lower(least_several(passed), least_conflict(&met)))
}

// The points that are passed with one count.
fn points_met(alloc: Global, passed: &[PassedStep]) -> Result<Vec<Met>, AllocError>
    ensures { IfOk result (λ met. met.items ≡ mets_of (passed_seen passed.now)) }
{
    let mut met = Vec::new(alloc);
    let mut rest = passed;
    'steps: while let Some((entry, others)) = rest.split_first() {
        if let (Step::Point(token, moment), Counts::One(count)) = (entry.step, entry.comes) {
            met.push(Met {
                token,
                moment,
                count,
            })?;
        }
        rest = others;
    }
    Ok(met)
}

// The token of the first point that was met with two counts. Equal points stand side by side, by their tokens.
fn least_conflict(met: &[Met]) -> Option<u32>
    requires { IsNonDecreasingBy place_of met.now }
    ensures { IsLeast (ConflictAmong met.now) result }
{
    for i in 1..met.len() {
        if is_conflict(met[i - 1], met[i]) {
            return Some(met[i].token);
        }
    }
    None
}

// One point, and two counts.
fn is_conflict(one: Met, other: Met) -> bool
    ensures { IsTrue result ↔ IsConflict one other }
{
    one.token == other.token && one.moment == other.moment && one.count != other.count
}
