//! What the tokens of an `#if` or `#elif` come to, behind `defined` and expansion (C11 6.10.1 p3, p4).
ghost use Rattle.std.specs.Prelude.{◌≡◌, ◌<◌, ◌^◌, ◌==◌, not, length, Bool};
ghost use Rattle.meaning_text.specs.Tokens.{Tok};
ghost use Rattle.meaning_preprocessing.specs.Groups.{Evaluation, Turn, by_answer};
ghost use Rattle.meaning_preprocessing.specs.State.{UnitState};
ghost use Rattle.meaning_preprocessing.specs.Unit.{IsEvaluation};
ghost use Rattle.c_tokens.specs.Seen.{toks_of};
ghost use Rattle.c_directives.specs.Conditions.{AreKnown};
ghost use Rattle.c_preproc.specs.Texts.{IsJudged};

use c_conditions::{IfFault, if_value};
use c_directives::LineFault;
use c_tokens::{Names, Token};
use sparse_model::ErrorKind;
use std::alloc::Global;

/// Whether the condition holds: its value isn't 0.
///
/// # Errors
/// `BadIfExpression` and `DivisionByZeroInIf`, where there is no value.
pub(crate) fn condition_holds(
    alloc: Global,
    names: &Names,
    tokens: &[Token],
) -> Result<bool, LineFault>
    requires few { length tokens.now < 2 ^ 30 }
    requires known { AreKnown names.now tokens.now }
    ensures { (value : Evaluation) (hash : Tok) (s : UnitState) (next : Bool → UnitState → Turn) → IsEvaluation value →
        IsJudged names.now s hash next result (by_answer hash (value (toks_of names.now tokens.now)) s next) }
{
    match if_value(alloc, names, tokens) {
        Ok(number) => Ok(is_not_zero(number.bits)),
        Err(IfFault::BadExpression(_)) => Err(LineFault::Refused(ErrorKind::BadIfExpression, None)),
        Err(IfFault::ZeroDivisor(_)) => Err(LineFault::Refused(
            ErrorKind::DivisionByZeroInIf,
            None,
        )),
        Err(IfFault::Memory) => Err(LineFault::Memory),
    }
}

fn is_not_zero(bits: u64) -> bool
    ensures { result ≡ not (bits == 0) }
{
    bits != 0
}
