// What steps add to a count.
ghost use Rattle.std.specs.Prelude.{◌≡◌, ◌<◌, ◌-◌, ◌^◌, map};
ghost use Rattle.meaning_paths.specs.Steps.{change};
ghost use Rattle.meaning_paths.specs.Graphs.{size_of_step, size_of_steps};
ghost use Rattle.control_flow.specs.Seen.{step_of, the_key};
ghost use Rattle.step_counts.specs.Counts.{IsWithin, shifted, total};

use crate::counts::Counts;
use control_flow::Step;

/// What a step adds.
pub fn change(step: Step) -> i64
    requires { size_of_step (step_of step) < 2 ^ 63 }
    ensures { result ≡ change the_key (step_of step) }
{
    match step {
        Step::Point(_, _) | Step::End(_) => 0,
        Step::Add(_, by) => by,
        Step::Call(_, enters, leaves) => leaves - enters,
    }
}

// What steps add together.
fn total(steps: &[Step]) -> i64
    requires { size_of_steps (map step_of steps.now) < 2 ^ 63 }
    ensures { result ≡ total the_key (map step_of steps.now) }
{
    let mut sum = 0;
    let mut rest = steps;
    'steps: while let Some((step, others)) = rest.split_first() {
        sum += change(*step);
        rest = others;
    }
    sum
}

/// The counts behind all steps of a block.
pub fn behind(comes: Counts, steps: &[Step]) -> Counts
    requires small { size_of_steps (map step_of steps.now) < 2 ^ 63 }
    requires within { IsWithin (2 ^ 63 - 1) (size_of_steps (map step_of steps.now)) comes }
    ensures { result ≡ shifted comes (total the_key (map step_of steps.now)) }
{
    comes.shifted(total(steps))
}
