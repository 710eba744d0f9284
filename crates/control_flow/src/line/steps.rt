// Steps: a letter, the number of a token, and what it adds, or the counts of a call.
ghost use Rattle.std.specs.Prelude.{◌≡◌, ◌++◌, OnOk, codes, map};
ghost use Rattle.std.specs.Fmt.{decimal, signed_decimal};
ghost use Rattle.control_flow.specs.Seen.{step_of};
ghost use Rattle.control_flow.specs.Shown.{shown_counts, shown_step, shown_steps, shown_steps_behind};

use crate::numbers::{push_change, push_count, push_number};
use crate::step::Step;
use std::alloc::AllocError;

fn push_counts(text: &mut Vec<u8>, enters: i64, leaves: i64) -> Result<(), AllocError>
    ensures { OnOk result (text.new.items ≡ text.old.items ++ shown_counts enters leaves) }
{
    push_count(text, b"(", enters)?;
    push_count(text, b",", leaves)?;
    text.extend_from_slice(b")")
}

// Appends a step.
fn push_step(text: &mut Vec<u8>, step: Step) -> Result<(), AllocError>
    ensures { OnOk result (text.new.items ≡ text.old.items ++ shown_step (step_of step)) }
{
    match step {
        Step::Point(token, false) => push_number(text, b"P", u64::from(token)),
        Step::Point(token, true) => push_number(text, b"M", u64::from(token)),
        Step::Add(token, by) => {
            push_number(text, b"A", u64::from(token))?;
            push_change(text, by)
        }
        Step::Call(token, enters, leaves) => {
            push_number(text, b"C", u64::from(token))?;
            push_counts(text, enters, leaves)
        }
        Step::End(token) => push_number(text, b"E", u64::from(token)),
    }
}

// Appends those that stand behind others.
fn push_steps_behind(text: &mut Vec<u8>, steps: &[Step]) -> Result<(), AllocError>
    ensures { OnOk result (text.new.items ≡ text.old.items ++ shown_steps_behind (map step_of steps.now)) }
{
    let mut rest = steps;
    'steps: while let Some((step, others)) = rest.split_first() {
        text.extend_from_slice(b" ")?;
        push_step(text, *step)?;
        rest = others;
    }
    Ok(())
}

/// Appends the steps of a block, or `-` for none.
pub fn push_steps(text: &mut Vec<u8>, steps: &[Step]) -> Result<(), AllocError>
    ensures { OnOk result (text.new.items ≡ text.old.items ++ shown_steps (map step_of steps.now)) }
{
    match steps.split_first() {
        Some((step, others)) => {
            push_step(text, *step)?;
            push_steps_behind(text, others)
        }
        None => text.extend_from_slice(b"-"),
    }
}
