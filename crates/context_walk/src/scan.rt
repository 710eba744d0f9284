// The least step at which a rule is broken, where each is passed with one count.
ghost use Rattle.std.specs.Prelude.{◌≡◌, ℤ};
ghost use Rattle.meaning_paths.specs.ContextRules.{IsLeast};
ghost use Rattle.control_flow.specs.Seen.{step_of, the_key};
ghost use Rattle.context_walk.specs.Passed.{passed_as, passed_seen};
ghost use Rattle.context_walk.specs.Scans.{IsLeastExit, LowIn, SeveralIn, WrongIn, lower, lower_end, seen_end, several_at, too_low_at, too_low_of, wrong_end_at};

use crate::passed::PassedStep;
use control_flow::Step;
use step_counts::Counts;

/// A leaving: its token, and the count with which a path leaves.
#[derive(Clone, Copy)]
pub struct Exit {
    pub token: u32,
    pub found: i64,
}

/// The least token of a point with several counts.
pub fn least_several(passed: &[PassedStep]) -> Option<u32>
    ensures { IsLeast (SeveralIn (passed_seen passed.now)) result }
{
    let mut least = None;
    let mut rest = passed;
    'steps: while let Some((entry, others)) = rest.split_first() {
        least = lower(least, several_at(*entry));
        rest = others;
    }
    least
}

/// The least token of a step that is too low.
pub fn least_fall(passed: &[PassedStep]) -> Option<u32>
    ensures { IsLeast (LowIn the_key (passed_seen passed.now)) result }
{
    let mut least = None;
    let mut rest = passed;
    'steps: while let Some((entry, others)) = rest.split_first() {
        least = lower(least, too_low_at(*entry));
        rest = others;
    }
    least
}

/// The least leaving with another count than this.
pub fn least_wrong_end(passed: &[PassedStep], leaves: i64) -> Option<Exit>
    ensures { IsLeastExit (WrongIn leaves (passed_seen passed.now)) (seen_end result) }
{
    let mut least = None;
    let mut rest = passed;
    'steps: while let Some((entry, others)) = rest.split_first() {
        least = lower_end(least, wrong_end_at(*entry, leaves));
        rest = others;
    }
    least
}

/// The lower of two tokens, where there are some.
pub fn lower(one: Option<u32>, other: Option<u32>) -> Option<u32>
    ensures { result ≡ lower one other }
{
    match (one, other) {
        (None, found) => found,
        (Some(token), None) => Some(token),
        (Some(token), Some(found)) => Some(token.min(found)),
    }
}

// The lower of two leavings, by their tokens and then by their counts.
fn lower_end(one: Option<Exit>, other: Option<Exit>) -> Option<Exit>
    ensures { seen_end result ≡ lower_end (seen_end one) (seen_end other) }
{
    match (one, other) {
        (None, found) => found,
        (Some(exit), None) => Some(exit),
        (Some(exit), Some(found)) => {
            if found.token < exit.token || found.token == exit.token && found.found < exit.found {
                Some(found)
            } else {
                Some(exit)
            }
        }
    }
}

// The token of a point with several counts.
fn several_at(entry: PassedStep) -> Option<u32>
    ensures { result ≡ several_at (passed_as entry) }
{
    match (entry.step, entry.comes) {
        (Step::Point(token, _), Counts::Several) => Some(token),
        _ => None,
    }
}

// The token of a step that is too low.
fn too_low_at(entry: PassedStep) -> Option<u32>
    ensures { result ≡ too_low_at the_key (passed_as entry) }
{
    let Counts::One(count) = entry.comes else {
        return None;
    };
    match entry.step {
        Step::Add(token, by) => low_change(token, count, by),
        Step::Call(token, enters, leaves) => low_call(token, count, enters, leaves),
        Step::Point(_, _) | Step::End(_) => None,
    }
}

// The token of a change that leaves a count below 0. Sums of counts that no bound is known of are made in a wider type.
fn low_change(token: u32, count: i64, by: i64) -> Option<u32>
    ensures { result ≡ too_low_of the_key (step_of (Step.Add token by)) (Counts.One count) }
{
    if i128::from(count) + i128::from(by) < 0 {
        return Some(token);
    }
    None
}

// The token of a call that meets a count below its in, or leaves one below 0.
fn low_call(token: u32, count: i64, enters: i64, leaves: i64) -> Option<u32>
    ensures { result ≡ too_low_of the_key (step_of (Step.Call token enters leaves)) (Counts.One count) }
{
    if count < enters {
        return Some(token);
    }
    if i128::from(count) + (i128::from(leaves) - i128::from(enters)) < 0 {
        return Some(token);
    }
    None
}

// A leaving with another count than this.
fn wrong_end_at(entry: PassedStep, leaves: i64) -> Option<Exit>
    ensures { seen_end result ≡ wrong_end_at leaves (passed_as entry) }
{
    match (entry.step, entry.comes) {
        (Step::End(token), Counts::One(found)) if found != leaves => Some(Exit { token, found }),
        _ => None,
    }
}
