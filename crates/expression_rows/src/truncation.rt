// Casts of constants to types with fewer bits.
ghost use Rattle.std.specs.Prelude.{◌≡◌, ◌&&◌, ◌∷◌, [], IfSome, Some, if◌then◌else◌, nat_lt, not};
ghost use Rattle.meaning_types.specs.Conversions.{promoted};
ghost use Rattle.meaning_types.specs.Ranges.{width};
ghost use Rattle.meaning_typing.specs.Casts as meaning;
ghost use Rattle.meaning_typing.specs.Operators.{IntegerSort};
ghost use Rattle.expression_rows.specs.Facts.{IsValued, valued_seen};
ghost use Rattle.expression_rows.specs.Rows.{IsKnownFailure, failure_listed};
ghost use Rattle.expression_rows.specs.Sorts.{sort_seen};

use crate::operand::number_of;
use crate::row::failed;
use crate::sort::ValueSort;
use crate::value::Valued;
use c_types::{Types, bits, promoted_kind};
use node_facts::{converted, wrapped};
use sparse_model::{Failure, IntKind, RuleCode};

// The kind of a value: a fouled one keeps the bits that its restricted type hasn't.
fn settled_kind(fouled: bool, kind: IntKind) -> IntKind
    ensures { result ≡ (if fouled then promoted kind else kind) }
{
    if fouled { promoted_kind(kind) } else { kind }
}

// Whether what a number became is the number again in the type from which it comes.
fn comes_back(fouled: bool, from: IntKind, number: i128, became: i128) -> bool
    ensures { result ≡ meaning.comes_back fouled from number became }
{
    wrapped(settled_kind(fouled, from), became) == number
}

// Whether fewer bits make another number of one, which became this.
fn is_truncated(fouled: bool, from: IntKind, to: IntKind, number: i128, became: i128) -> bool
    ensures { result ≡ nat_lt (width to) (width from) && not (meaning.comes_back fouled from number became) }
{
    bits(to) < bits(from) && !comes_back(fouled, from, number, became)
}

// A number became another one.
fn truncation(types: &Types, token: u32, number: i128, became: i128) -> Failure
    ensures failure { failure_listed types.now (Some result) ≡ meaning.truncation token number became ∷ [] }
    ensures known { IsKnownFailure types.now result }
{
    Failure {
        number,
        wanted: became,
        ..failed(RuleCode::S8, token, 0, None, None)
    }
}

fn truncated_to(
    types: &Types,
    token: u32,
    fouled: bool,
    from: IntKind,
    to: IntKind,
    number: i128,
) -> Option<Failure>
    ensures failure { failure_listed types.now result ≡ meaning.truncated_to token fouled from to number }
    ensures known { IfSome result (IsKnownFailure types.now) }
{
    let became = converted(to, number);
    if is_truncated(fouled, from, to, number, became) {
        Some(truncation(types, token, number, became))
    } else {
        None
    }
}

// Of a value of which the number may be known.
fn number_failure(
    types: &Types,
    token: u32,
    of: Valued,
    from: IntKind,
    to: IntKind,
    number: Option<i128>,
) -> Option<Failure>
    requires { IsValued types.now of }
    ensures failure { failure_listed types.now result ≡ meaning.constant_failures token (valued_seen types.now of) from (IntegerSort to) number }
    ensures known { IfSome result (IsKnownFailure types.now) }
{
    match number {
        None => None,
        Some(number) => truncated_to(types, token, of.fact.node.value.fouled, from, to, number),
    }
}

/// A cast of a constant of this kind makes another number of it.
pub fn constant_failure(
    types: &Types,
    token: u32,
    of: Valued,
    from: IntKind,
    target: ValueSort,
) -> Option<Failure>
    requires { IsValued types.now of }
    ensures failure { failure_listed types.now result ≡ meaning.constant_failures token (valued_seen types.now of) from (sort_seen target) (valued_seen types.now of).constant }
    ensures known { IfSome result (IsKnownFailure types.now) }
{
    match target {
        ValueSort::Integer(to) => {
            let number = number_of(types, of.fact);
            number_failure(types, token, of, from, to, number)
        }
        _ => None,
    }
}
