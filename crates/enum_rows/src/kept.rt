// What is kept of the values of enumerators (C11 6.7.2.2 p4; that they share a restricted type is our choice): a few bytes for any
// number of them. How they are read isn't known here.
ghost use Rattle.std.specs.Prelude.{◌≡◌, option_map};
ghost use Rattle.meaning_typing.specs.Enumerations.{has_identity, is_plain_zero};
ghost use Rattle.c_types.specs.Operands.{identity_seen};
ghost use Rattle.enum_rows.specs.Enumerations as kept;
ghost use Rattle.enum_rows.specs.Integers.{restricted_seen};
ghost use Rattle.enum_rows.specs.Values.{value_seen};

use crate::integers::{IntegerType, RestrictedType, Span};
use crate::values::EnumeratorValue;
use sparse_model::Restrict;

/// What is kept of the values of enumerators.
#[derive(Clone, Copy)]
pub struct Values {
    /// 0 and all their numbers are in it.
    pub span: Span,
    /// The type of the first that is restricted.
    pub restricted: Option<RestrictedType>,
    /// The type of the first that doesn't join those of that type: it has another one, and isn't the plain constant 0.
    pub apart: Option<IntegerType>,
}

fn restricted_of(value: EnumeratorValue) -> Option<RestrictedType>
    ensures { result ≡ kept.restricted_of value }
{
    match value.of.identity {
        Some(identity) => Some(RestrictedType {
            kind: value.of.kind,
            identity,
        }),
        None => None,
    }
}

fn is_identity(identity: Restrict, other: Option<Restrict>) -> bool
    ensures { result ≡ has_identity identity.0 (identity_seen other) }
{
    match other {
        Some(other) => identity == other,
        None => false,
    }
}

fn is_plain_zero(value: EnumeratorValue) -> bool
    ensures { result ≡ is_plain_zero (value_seen value) }
{
    match value.of.identity {
        Some(_) => false,
        None => value.number == 0,
    }
}

// Whether it has this restricted type, if there is one, or is the plain constant 0.
fn joins(restricted: Option<RestrictedType>, value: EnumeratorValue) -> bool
    ensures { result ≡ kept.joins (option_map restricted_seen restricted) (value_seen value) }
{
    match restricted {
        Some(restricted) => {
            is_identity(restricted.identity, value.of.identity) || is_plain_zero(value)
        }
        None => is_plain_zero(value),
    }
}

fn apart_if(restricted: Option<RestrictedType>, value: EnumeratorValue) -> Option<IntegerType>
    ensures { result ≡ kept.apart_if restricted value }
{
    if joins(restricted, value) {
        None
    } else {
        Some(value.of)
    }
}

impl Values {
    /// Those of no enumerators.
    pub fn none() -> Values
        ensures { result ≡ kept.no_values }
    {
        Values {
            span: Span::only(0),
            restricted: None,
            apart: None,
        }
    }

    /// With one more behind them.
    pub fn with(self, value: EnumeratorValue) -> Values
        ensures { result ≡ kept.values_with self value }
    {
        let restricted = match self.restricted {
            Some(first) => Some(first),
            None => restricted_of(value),
        };
        let apart = match self.apart {
            Some(first) => Some(first),
            None => apart_if(restricted, value),
        };
        Values {
            span: self.span.with(value.number),
            restricted,
            apart,
        }
    }

    /// The restricted type that all share: those that don't have it are the plain constant 0.
    pub fn shared(self) -> Option<RestrictedType>
        ensures { result ≡ kept.shared self }
    {
        match (self.restricted, self.apart) {
            (Some(restricted), None) => Some(restricted),
            _ => None,
        }
    }
}
