// The value of an `#if`: tokens in, a number out. Where the tokens stand in a file isn't known here.
ghost use Rattle.std.specs.Prelude.{◌≡◌, ◌^◌, ◌<◌, All, length, IfOk, IfErr};
ghost use Rattle.meaning_conditions.specs.Answers.{Answer, HasValue, IsIfAnswer};
ghost use Rattle.c_tokens.specs.Seen.{IsKnown, toks_of};
ghost use Rattle.c_conditions.specs.Seen.{IsIfFault, Matches, number_seen};

use crate::fault::{IfFault, IfNumber};
use crate::frames::{finish, step};
use crate::signs::sign_of;
use c_tokens::{Names, Token};
use std::alloc::Global;

/// The value of the expression that the tokens are, behind `defined` and expansion (C11 6.10.1 p1, p4).
/// Indices are counted from 0. It takes time and memory that are linear in the tokens.
///
/// # Errors
/// `BadExpression` where the tokens are no expression: at the first with which none goes on, or at their
/// number. Else `ZeroDivisor` where an operator that is evaluated divides by 0: the first of them. `Memory`
/// may come in place of any answer.
pub fn if_value(alloc: Global, names: &Names, toks: &[Token]) -> Result<IfNumber, IfFault>
    requires few { length toks.now < 2 ^ 30 }
    requires known { All (λ token. IsKnown names.now token.name) toks.now }
    ensures value { IfOk result (λ number. IsIfAnswer (toks_of names.now toks.now) (HasValue (number_seen number))) }
    ensures fault { IfErr result (IsIfFault (toks_of names.now toks.now)) }

    // Whatever has a value, a bad index or a zero divisor is told it, unless memory is wanting.
    ensures exact { (answer : Answer) → IsIfAnswer (toks_of names.now toks.now) answer → Matches answer result }
{
    let mut frames = Vec::new(alloc);
    let mut operand = None;
    let mut index: u32 = 0;
    let mut rest = toks;
    'tokens: while let Some((&token, others)) = rest.split_first() {
        match step(&mut frames, index, operand, sign_of(names, token)) {
            Ok(next) => operand = next,
            Err(fault) => return Err(fault),
        }
        index += 1;
        rest = others;
    }
    finish(&mut frames, index, operand)
}
