// Rows whose type is still to be made, so that they are found over a table that stays as it is.
ghost use Rattle.std.specs.Prelude.{◌≡◌, IfOk, IfSome, OnOk, None};
ghost use Rattle.meaning_typing.specs.Facts.{place, type_of_value};
ghost use Rattle.c_types.specs.Table.{IsTypeId, type_at};
ghost use Rattle.node_facts.specs.Growing.{TypesJoin};
ghost use Rattle.expression_rows.specs.Outcomes.{IsKnownOutcome, IsKnownType, breaks_outcome, fact_given, given_of, gives_outcome, outcome_seen, type_given};
ghost use Rattle.expression_rows.specs.Rows.{IsKnownFailure, IsKnownRow, row_seen};

use crate::row::{Broken, Row, RowFailures};
use crate::value::{make, type_of_value};
use c_types::{NodeType, NodeValue, ShapeBase, Types};
use node_facts::{Addressed, ExpressionFact, ExpressionMarks};
use sparse_model::{IntKind, TypeId};
use std::alloc::AllocError;

/// A type that stands, or one that is easily made.
#[derive(Clone, Copy)]
pub enum GivenType {
    Same(TypeId),
    /// A plain integer.
    Integer(IntKind),
    Void,
    /// That of what is loaded from a place of this type.
    Loaded(TypeId),
}

/// What is known of a value.
#[derive(Clone, Copy)]
pub struct Given {
    pub of: GivenType,
    pub fouled: bool,
    pub is_null: bool,
    pub address: Addressed,
}

/// What a row says: what is given counts where nothing is broken.
#[derive(Clone, Copy)]
pub struct Outcome {
    pub given: Option<Given>,
    pub broken: Option<Broken>,
    pub failures: RowFailures,
}

impl Given {
    /// A value of this type, of which nothing else is known.
    pub fn value(of: GivenType) -> Given
        ensures { result ≡ given_of of }
    {
        Given {
            of,
            fouled: false,
            is_null: false,
            address: Addressed::NotAddress,
        }
    }
}

impl Outcome {
    /// Nothing is known, and nothing is said.
    pub fn nothing() -> Outcome
        ensures { result ≡ breaks_outcome None }
    {
        Outcome::breaks(None)
    }

    /// Nothing is known.
    pub fn breaks(broken: Option<Broken>) -> Outcome
        ensures { result ≡ breaks_outcome broken }
    {
        Outcome {
            given: None,
            broken,
            failures: RowFailures::none(),
        }
    }

    /// This is known, unless something is broken.
    pub fn gives(given: Given, broken: Option<Broken>, failures: RowFailures) -> Outcome
        ensures { result ≡ gives_outcome given broken failures }
    {
        Outcome {
            given: Some(given),
            broken,
            failures,
        }
    }
}

// The type of what is loaded from a place of this type.
fn loaded_type(types: &mut Types, of: TypeId) -> Result<TypeId, AllocError>
    requires { IsTypeId types.old of }
    ensures made { IfOk result (λ id. type_at types.new id ≡ type_of_value (place (type_at types.old of))) }
    ensures known { IfOk result (IsTypeId types.new) }
    ensures keeps { OnOk result (TypesJoin types.old types.new) }
{
    type_of_value(types, ExpressionFact::place(of))
}

// The type.
fn make_given(types: &mut Types, of: GivenType) -> Result<TypeId, AllocError>
    requires { IsKnownType types.old of }
    ensures made { IfOk result (λ id. type_at types.new id ≡ type_given types.old of) }
    ensures known { IfOk result (IsTypeId types.new) }
    ensures keeps { OnOk result (TypesJoin types.old types.new) }
{
    match of {
        GivenType::Same(id) => Ok(id),
        GivenType::Integer(kind) => make(types, ShapeBase::Integer(kind, None)),
        GivenType::Void => make(types, ShapeBase::Void),
        GivenType::Loaded(id) => loaded_type(types, id),
    }
}

// What is known of a value, with its type.
fn fact_of(given: Given, of: TypeId) -> ExpressionFact
    ensures { result ≡ fact_given given of }
{
    ExpressionFact {
        node: NodeType {
            of,
            value: NodeValue {
                fouled: given.fouled,
                width: None,
                constant: None,
            },
        },
        marks: ExpressionMarks {
            is_null: given.is_null,
            address: given.address,
            ..ExpressionMarks::none()
        },
    }
}

// The row of a value.
fn give(types: &mut Types, given: Given, failures: RowFailures) -> Result<Row, AllocError>
    requires given { IsKnownType types.old given.of }
    requires first { IfSome failures.first (IsKnownFailure types.old) }
    requires second { IfSome failures.second (IsKnownFailure types.old) }
    ensures row { IfOk result (λ row. row_seen types.new row ≡ outcome_seen types.old (gives_outcome given None failures)) }
    ensures known { IfOk result (IsKnownRow types.new) }
    ensures keeps { OnOk result (TypesJoin types.old types.new) }
{
    let of = make_given(types, given.of)?;
    Ok(Row::gives(fact_of(given, of), None, failures))
}

/// The row, with its type. It takes a few steps.
pub fn finish(types: &mut Types, outcome: Outcome) -> Result<Row, AllocError>
    requires { IsKnownOutcome types.old outcome }
    ensures row { IfOk result (λ row. row_seen types.new row ≡ outcome_seen types.old outcome) }
    ensures known { IfOk result (IsKnownRow types.new) }
    ensures keeps { OnOk result (TypesJoin types.old types.new) }
{
    match (outcome.broken, outcome.given) {
        (None, Some(given)) => give(types, given, outcome.failures),
        (None, None) => Ok(Row::breaks(None, outcome.failures)),
        (Some(broken), _) => Ok(Row::breaks(Some(broken), outcome.failures)),
    }
}
