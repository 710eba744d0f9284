// The row of an enumeration (C11 6.7.2.2 p4), by its enumerators, which are taken one by one. What is kept stands for all that were
// taken, so no list of them is needed, and their nodes aren't known here.
ghost use Rattle.std.specs.Prelude.{◌≡◌, ◌++◌, ◌∷◌, [], IfOk, IfSome, List, OnOk, Some};
ghost use Rattle.meaning_typing.specs.EnumRows as meaning;
ghost use Rattle.meaning_typing.specs.Facts.{NamedType};
ghost use Rattle.meaning_typing.specs.Rows.{known};
ghost use Rattle.node_facts.specs.Facts.{IsKnownNodeFact, node_seen};
ghost use Rattle.node_facts.specs.Growing.{TypesJoin};
ghost use Rattle.expression_rows.specs.Rows.{IsKnownFailure, failure_listed, told};
ghost use Rattle.enum_rows.specs.Enumerations as kept;
ghost use Rattle.enum_rows.specs.Enumerations.{StandsFor};
ghost use Rattle.enum_rows.specs.Integers.{integer_of_restricted, type_of_integer};
ghost use Rattle.enum_rows.specs.Names.{IsSharing, sharing_in, sharing_of};
ghost use Rattle.enum_rows.specs.Rows.{IsKnownRow, row_seen};

use crate::integers::{IntegerType, RestrictedType};
use crate::kept::Values;
use crate::names::Sharing;
use crate::row::EnumRow;
use crate::types::make_integer;
use crate::values::{EnumeratorValue, has_no_next, value_in};
use c_types::Types;
use node_facts::NodeFact;
use sparse_model::{ErrorKind, Failure, IntKind, NameId, RuleCode};
use std::alloc::AllocError;

/// The enumerators of an enumeration that were taken so far.
#[derive(Clone, Copy)]
pub struct Enumerators {
    /// The value of the last one, if it is known.
    before: Option<EnumeratorValue>,
    /// One without an expression stands where no type has the next number.
    counts_too_far: bool,
    /// Where the value of each is known.
    values: Option<Values>,
}

fn sharing_of(shared: Option<RestrictedType>) -> Sharing
    ensures { result ≡ sharing_of shared }
{
    match shared {
        Some(shared) => Sharing::Shared(shared),
        None => Sharing::Own,
    }
}

fn sharing_in(values: Option<Values>) -> Sharing
    ensures { result ≡ sharing_in values }
{
    match values {
        Some(values) => sharing_of(values.shared()),
        None => Sharing::Unknown,
    }
}

// Values where each is known.
fn values_with(values: Option<Values>, value: Option<EnumeratorValue>) -> Option<Values>
    ensures { result ≡ kept.known_with values value }
{
    match (values, value) {
        (Some(values), Some(value)) => Some(values.with(value)),
        _ => None,
    }
}

impl Enumerators {
    /// Those of an enumeration of which none was taken yet.
    pub fn none() -> Enumerators
        ensures { StandsFor result [] }
    {
        Enumerators {
            before: None,
            counts_too_far: false,
            values: Some(Values::none()),
        }
    }

    // With one more behind them, of which this is known.
    fn with_value(self, has_expression: bool, value: Option<EnumeratorValue>) -> Enumerators
        ensures { result ≡ kept.enumerators_with self has_expression value }
    {
        Enumerators {
            before: value,
            counts_too_far: self.counts_too_far || (!has_expression && has_no_next(self.before)),
            values: values_with(self.values, value),
        }
    }

    /// With one more behind them, of which this is known. It takes a few steps, and no memory.
    pub fn with(self, types: &Types, has_expression: bool, fact: NodeFact) -> Enumerators
        requires { IsKnownNodeFact types.now fact }
        ensures { (list : List meaning.SeenEnumerator) → StandsFor self list → StandsFor result (list ++ record { has_expression = has_expression; fact = node_seen types.now fact } ∷ []) }
    {
        self.with_value(has_expression, value_in(types, fact))
    }

    /// What is said of the types of all where they are named behind the enumeration.
    pub fn sharing(self) -> Sharing
        ensures { (list : List meaning.SeenEnumerator) → StandsFor self list → IsSharing result list }
    {
        sharing_in(self.values)
    }
}

// Restricted and other enumerators stand side by side.
fn mixed(
    types: &mut Types,
    token: u32,
    restricted: RestrictedType,
    apart: IntegerType,
) -> Result<Failure, AllocError>
    ensures failure { IfOk result (λ failure. failure_listed types.new (Some failure) ≡ kept.mixed_of token (Some restricted) (Some apart)) }
    ensures known { IfOk result (IsKnownFailure types.new) }
    ensures keeps { OnOk result (TypesJoin types.old types.new) }
{
    let first = make_integer(types, IntegerType::restricted(restricted))?;
    let second = make_integer(types, apart)?;
    Ok(Failure {
        token,
        rule: RuleCode::B2,
        part: 0,
        first: Some(first),
        second: Some(second),
        name: NameId(0),
        number: 0,
        wanted: 0,
    })
}

fn mixed_if(
    types: &mut Types,
    token: u32,
    restricted: Option<RestrictedType>,
    apart: Option<IntegerType>,
) -> Result<Option<Failure>, AllocError>
    ensures failure { IfOk result (λ failure. failure_listed types.new failure ≡ kept.mixed_of token restricted apart) }
    ensures known { IfOk result (λ failure. IfSome failure (IsKnownFailure types.new)) }
    ensures keeps { OnOk result (TypesJoin types.old types.new) }
{
    match (restricted, apart) {
        (Some(restricted), Some(apart)) => Ok(Some(mixed(types, token, restricted, apart)?)),
        _ => Ok(None),
    }
}

// An enumeration of a plain kind, with what fails.
fn plain_row(
    types: &mut Types,
    token: u32,
    values: Values,
    kind: IntKind,
) -> Result<EnumRow, AllocError>
    ensures row { IfOk result (λ row. row_seen types.new row ≡ told (meaning.plain_enumeration token (kept.mixed_failures token values) (Some kind))) }
    ensures known { IfOk result (IsKnownRow types.new) }
    ensures keeps { OnOk result (TypesJoin types.old types.new) }
{
    let of = make_integer(types, IntegerType::plain(kind))?;
    let failure = mixed_if(types, token, values.restricted, values.apart)?;
    Ok(EnumRow {
        fact: NodeFact::NamedType(of),
        broken: None,
        failure,
    })
}

// An enumeration of a restricted type.
fn shared_row(types: &mut Types, shared: RestrictedType) -> Result<EnumRow, AllocError>
    ensures row { IfOk result (λ row. row_seen types.new row ≡ told (known (NamedType (type_of_integer (integer_of_restricted shared))))) }
    ensures known { IfOk result (IsKnownRow types.new) }
    ensures keeps { OnOk result (TypesJoin types.old types.new) }
{
    let of = make_integer(types, IntegerType::restricted(shared))?;
    Ok(EnumRow::known(NodeFact::NamedType(of)))
}

// By the first of the plain kinds that has all numbers, if one has.
fn spanned_row(
    types: &mut Types,
    token: u32,
    values: Values,
    kind: Option<IntKind>,
) -> Result<EnumRow, AllocError>
    ensures row { IfOk result (λ row. row_seen types.new row ≡ told (meaning.plain_enumeration token (kept.mixed_failures token values) kind)) }
    ensures known { IfOk result (IsKnownRow types.new) }
    ensures keeps { OnOk result (TypesJoin types.old types.new) }
{
    match kind {
        Some(kind) => plain_row(types, token, values, kind),
        None => Ok(EnumRow::breaks(ErrorKind::EnumeratorOutOfRange, token)),
    }
}

// By the restricted type that all share, if they do.
fn row_by(
    types: &mut Types,
    token: u32,
    values: Values,
    shared: Option<RestrictedType>,
) -> Result<EnumRow, AllocError>
    ensures row { IfOk result (λ row. row_seen types.new row ≡ told (kept.row_by token values shared)) }
    ensures known { IfOk result (IsKnownRow types.new) }
    ensures keeps { OnOk result (TypesJoin types.old types.new) }
{
    match shared {
        Some(shared) => shared_row(types, shared),
        None => spanned_row(types, token, values, values.span.first_kind()),
    }
}

fn row_of_known(
    types: &mut Types,
    token: u32,
    values: Option<Values>,
) -> Result<EnumRow, AllocError>
    ensures row { IfOk result (λ row. row_seen types.new row ≡ told (kept.row_of_known token values)) }
    ensures known { IfOk result (IsKnownRow types.new) }
    ensures keeps { OnOk result (TypesJoin types.old types.new) }
{
    match values {
        Some(values) => row_by(types, token, values, values.shared()),
        None => Ok(EnumRow::nothing()),
    }
}

fn row_of(types: &mut Types, token: u32, enumerators: Enumerators) -> Result<EnumRow, AllocError>
    ensures row { IfOk result (λ row. row_seen types.new row ≡ told (kept.row_of token enumerators)) }
    ensures known { IfOk result (IsKnownRow types.new) }
    ensures keeps { OnOk result (TypesJoin types.old types.new) }
{
    if enumerators.counts_too_far {
        Ok(EnumRow::breaks(ErrorKind::EnumeratorOutOfRange, token))
    } else {
        row_of_known(types, token, enumerators.values)
    }
}

/// The row of an enumeration whose `enum` stands at this token, behind its last enumerator. It takes a few steps.
pub fn judge_enumeration(
    types: &mut Types,
    token: u32,
    enumerators: Enumerators,
) -> Result<EnumRow, AllocError>
    ensures row { IfOk result (λ row. (list : List meaning.SeenEnumerator) → StandsFor enumerators list → row_seen types.new row ≡ told (meaning.enumeration_row token list)) }
    ensures known { IfOk result (IsKnownRow types.new) }
    ensures keeps { OnOk result (TypesJoin types.old types.new) }
{
    let row = row_of(types, token, enumerators)?;
    Ok(row)
}
