// What is passed in a cell: where it is entered, and at its own moment.
ghost use Rattle.std.specs.Prelude.{◌≡◌, ℕ, List};
ghost use Rattle.sparse_model.specs.declared.ids.NameId.{NameId as Name};
ghost use Rattle.meaning_control.specs.Rows as meaning;
ghost use Rattle.control_cells.specs.Passing.{steps_seen};
ghost use Rattle.control_cells.specs.Seen.{kind_seen, passes_seen};

use crate::kind::ControlKind;
use control_flow::{ContextNote, Step};

/// At most two steps, in their order.
#[derive(Clone, Copy)]
pub enum Steps {
    Nothing,
    One(Step),
    Two(Step, Step),
}

/// What is passed where a cell is entered: each statement is a point at its first token.
pub fn entry_steps(kind: ControlKind, token: u32) -> Steps
    ensures { (names : Name → List ℕ) → steps_seen result ≡ meaning.entry_steps (kind_seen names token kind) token }
{
    match kind {
        ControlKind::Context(by) => Steps::Two(Step::Point(token, false), Step::Add(token, by)),
        ControlKind::Value(_) => Steps::Nothing,
        ControlKind::Calling(_, _) => Steps::Nothing,
        ControlKind::Sequence => Steps::Nothing,
        ControlKind::Body => Steps::Nothing,
        ControlKind::Not => Steps::Nothing,
        ControlKind::And => Steps::Nothing,
        ControlKind::Or => Steps::Nothing,
        ControlKind::Conditional => Steps::Nothing,
        ControlKind::Expect => Steps::Nothing,
        _ => Steps::One(Step::Point(token, false)),
    }
}

// What a call passes, where its function has contexts.
fn call_steps(contexts: Option<ContextNote>, token: u32) -> Steps
    ensures { steps_seen result ≡ passes_seen token contexts }
{
    match contexts {
        Some(note) => Steps::Two(
            Step::Point(token, false),
            Step::Call(token, note.enters, note.leaves),
        ),
        None => Steps::Nothing,
    }
}

/// What is passed at its moment: before the condition of a loop, where it has one, behind the expression of a `return`, and behind
/// the arguments of a call.
pub fn moment_steps(kind: ControlKind, token: u32) -> Steps
    ensures { (names : Name → List ℕ) → steps_seen result ≡ meaning.moment_steps (kind_seen names token kind) token }
{
    match kind {
        ControlKind::While => Steps::One(Step::Point(token, true)),
        ControlKind::Do(while_token) => Steps::One(Step::Point(while_token, true)),
        ControlKind::For(true) => Steps::One(Step::Point(token, true)),
        ControlKind::For(false) => Steps::Nothing,
        ControlKind::Return => Steps::Two(Step::Point(token, true), Step::End(token)),
        ControlKind::Calling(contexts, _) => call_steps(contexts, token),
        _ => Steps::Nothing,
    }
}
