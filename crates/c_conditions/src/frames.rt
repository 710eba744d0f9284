//! What is open around a place in an expression: a stack of what waits for an operand, without recursion.
ghost use Rattle.std.specs.Prelude.{◌≡◌, ℕ, List, [], ◌∷◌, ◌++◌, ◌≢◌, MatchOption, OnOk, IfOk, IfErr, Some, None, Err};
ghost use Rattle.meaning_conditions.specs.Values as meaning;
ghost use Rattle.meaning_conditions.specs.plain.Reading as reading;
ghost use Rattle.meaning_conditions.specs.plain.Reading.{answer_of_read, behind_colon, behind_parenthesis, ended, next_state, reduced, unreduced, values};
ghost use Rattle.c_conditions.specs.Seen.{Matches, operand_seen, sign_seen};
ghost use Rattle.c_conditions.specs.Frames.{IsStepped, frame_seen, frames_seen, state_seen};

use crate::fault::{IfFault, IfNumber};
use crate::operand::{Operand, Outcome};
use crate::operators::{Binary, Unary};
use crate::signs::Sign;
use std::mem::size_of;

/// How strongly `?:` binds, and what stands before its `?`.
const CONDITIONAL_RANK: u8 = 0;

const CONDITION_RANK: u8 = 1;

/// What waits for an operand.
#[derive(Clone, Copy, Debug, PartialEq, Eq)]
pub(crate) enum Frame {
    Parenthesis,
    Prefix(Unary),
    /// An operator with the index of its token, and its left operand.
    Infix(u32, Binary, Operand),
    /// What stands before `?`.
    Condition(Operand),
    /// A condition, and what stands before `:`.
    Middle(Operand, Operand),
}

// As many of them may be open as there are tokens.
const _: () = prove!(size_of::<Frame>() <= 56);

// What the innermost frame makes of the operand, if it binds it at least as strongly as this.
fn taken(frame: Frame, least: u8, operand: Operand) -> Option<Operand>
    ensures { (frames : List (reading.Frame meaning.Operand)) → MatchOption result
        (reduced values least (frame_seen frame ∷ frames) (operand_seen operand)
        ≡ unreduced (frame_seen frame ∷ frames) (operand_seen operand))
        (λ next. reduced values least (frame_seen frame ∷ frames) (operand_seen operand)
        ≡ reduced values least frames (operand_seen next)) }
{
    match frame {
        Frame::Prefix(operator) => Some(Operand::one(operator, operand)),
        Frame::Infix(index, operator, left) if least <= operator.rank() => {
            Some(Operand::two(index, operator, left, operand))
        }
        Frame::Middle(condition, middle) if least == CONDITIONAL_RANK => {
            Some(Operand::choice(condition, middle, operand))
        }
        _ => None,
    }
}

// The innermost frame.
fn innermost(frames: &Vec<Frame>) -> Option<Frame>
    ensures { MatchOption result
        (frames.now.items ≡ [])
        (λ frame. (others : List Frame) × (frames.now.items ≡ others ++ frame ∷ [])) }
{
    match frames.last() {
        Some(&frame) => Some(frame),
        None => None,
    }
}

// The frames that bind the operand at least as strongly as this take it.
fn reduce(frames: &mut Vec<Frame>, least: u8, operand: Operand) -> Operand
    ensures { reduced values least (frames_seen frames.old.items) (operand_seen operand)
        ≡ unreduced (frames_seen frames.new.items) (operand_seen result) }
{
    let mut operand = operand;
    'frames: while let Some(frame) = innermost(frames) {
        let Some(next) = taken(frame, least, operand) else {
            return operand;
        };
        frames.pop();
        operand = next;
    }
    operand
}

// The frame waits for an operand.
fn wait(frames: &mut Vec<Frame>, frame: Frame) -> Result<Option<Operand>, IfFault>
    ensures frames { OnOk result
        (frames_seen frames.new.items ≡ frame_seen frame ∷ frames_seen frames.old.items) }
    ensures wants { IfOk result (λ operand. operand ≡ None) }
    ensures only { IfErr result (λ fault. fault ≡ IfFault.Memory) }
{
    frames.push(frame)?;
    Ok(None)
}

/// What the sign at this index makes of a place: behind an operand, or where one is wanted. `BadExpression`
/// tells that the sign can't stand there.
pub(crate) fn step(
    frames: &mut Vec<Frame>,
    index: u32,
    operand: Option<Operand>,
    sign: Sign,
) -> Result<Option<Operand>, IfFault>
    ensures { IsStepped (next_state values (state_seen frames.old.items operand) (sign_seen index sign))
        index frames.new.items result }
{
    match operand {
        None => begin(frames, index, sign),
        Some(operand) => go_on(frames, index, operand, sign),
    }
}

fn begin(frames: &mut Vec<Frame>, index: u32, sign: Sign) -> Result<Option<Operand>, IfFault>
    ensures { IsStepped (next_state values (state_seen frames.old.items None) (sign_seen index sign))
        index frames.new.items result }
{
    match sign {
        Sign::Literal(number) => Ok(Some(Operand::of(number))),
        Sign::OpenParenthesis => wait(frames, Frame::Parenthesis),
        Sign::Operator(Some(operator), _) => wait(frames, Frame::Prefix(operator)),
        Sign::Operator(None, _) => Err(IfFault::BadExpression(index)),
        Sign::CloseParenthesis | Sign::QuestionMark => Err(IfFault::BadExpression(index)),
        Sign::Colon | Sign::Stranger => Err(IfFault::BadExpression(index)),
    }
}

fn go_on(
    frames: &mut Vec<Frame>,
    index: u32,
    operand: Operand,
    sign: Sign,
) -> Result<Option<Operand>, IfFault>
    ensures { IsStepped
        (next_state values (state_seen frames.old.items (Some operand)) (sign_seen index sign))
        index frames.new.items result }
{
    match sign {
        Sign::Operator(_, Some(operator)) => {
            let left = reduce(frames, operator.rank(), operand);
            wait(frames, Frame::Infix(index, operator, left))
        }
        Sign::QuestionMark => {
            let condition = reduce(frames, CONDITION_RANK, operand);
            wait(frames, Frame::Condition(condition))
        }
        Sign::Colon => {
            let middle = reduce(frames, CONDITIONAL_RANK, operand);
            part(frames, index, middle)
        }
        Sign::CloseParenthesis => {
            let inner = reduce(frames, CONDITIONAL_RANK, operand);
            close(frames, index, inner)
        }
        Sign::Operator(_, None) => Err(IfFault::BadExpression(index)),
        Sign::Literal(_) => Err(IfFault::BadExpression(index)),
        Sign::OpenParenthesis | Sign::Stranger => Err(IfFault::BadExpression(index)),
    }
}

// A `:` behind the middle of a conditional expression.
fn part(frames: &mut Vec<Frame>, index: u32, middle: Operand) -> Result<Option<Operand>, IfFault>
    ensures { IsStepped (behind_colon (frames_seen frames.old.items) (operand_seen middle))
        index frames.new.items result }
{
    match frames.pop() {
        Some(Frame::Condition(condition)) => wait(frames, Frame::Middle(condition, middle)),
        _ => Err(IfFault::BadExpression(index)),
    }
}

// A `)` behind what stands in the parenthesis.
fn close(frames: &mut Vec<Frame>, index: u32, inner: Operand) -> Result<Option<Operand>, IfFault>
    ensures { IsStepped (behind_parenthesis (frames_seen frames.old.items) (operand_seen inner))
        index frames.new.items result }
{
    match frames.pop() {
        Some(Frame::Parenthesis) => Ok(Some(inner)),
        _ => Err(IfFault::BadExpression(index)),
    }
}

/// The answer where no sign is left, at this index.
pub(crate) fn finish(
    frames: &mut Vec<Frame>,
    index: u32,
    operand: Option<Operand>,
) -> Result<IfNumber, IfFault>
    ensures answer { Matches
        (answer_of_read (ended values index (state_seen frames.old.items operand)))
        result }
    ensures no_memory { result ≢ Err IfFault.Memory }
{
    let Some(operand) = operand else {
        return Err(IfFault::BadExpression(index));
    };
    let whole = reduce(frames, CONDITIONAL_RANK, operand);
    if !frames.is_empty() {
        return Err(IfFault::BadExpression(index));
    }
    match whole.outcome {
        Outcome::Is(bits) => Ok(IfNumber {
            bits,
            unsigned: whole.unsigned,
        }),
        Outcome::ZeroAt(at) => Err(IfFault::ZeroDivisor(at)),
    }
}
