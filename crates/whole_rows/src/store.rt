// What a store takes for the place that is stored to (C11 6.3.2.1 p1). Tokens and other parts aren't known here.
ghost use Rattle.std.specs.Prelude.{◌≡◌, IfSome};
ghost use Rattle.expression_rows.specs.Facts.{IsKnownPart, IsValued, part_seen, valued_part};
ghost use Rattle.node_facts.specs.Facts.{IsKnownFact, fact_seen};
ghost use Rattle.whole_rows.specs.ConstAggregates.{is_among};
ghost use Rattle.whole_rows.specs.Stores.{part_stored, place_stored, unplaced_in};

use crate::const_aggregates::ConstAggregates;
use c_types::Types;
use expression_rows::Valued;
use node_facts::{ExpressionFact, ExpressionMarks};

// What can't be written is as good as no place.
fn unplaced(expression: ExpressionFact) -> ExpressionFact
    ensures { result ≡ unplaced_in expression }
{
    ExpressionFact {
        marks: ExpressionMarks {
            is_place: false,
            ..expression.marks
        },
        ..expression
    }
}

/// What a store takes for this place: of an aggregate with a const member no place at all.
pub fn place_stored(
    types: &Types,
    consts: &ConstAggregates,
    place: ExpressionFact,
) -> ExpressionFact
    requires { IsKnownFact types.now place }
    ensures stored { fact_seen types.now result ≡ place_stored (is_among consts.now) (fact_seen types.now place) }
    ensures node { result.node ≡ place.node }
{
    if consts.has_const_member(types, place.node.of) {
        unplaced(place)
    } else {
        place
    }
}

/// The same of a part of which something may be known.
pub fn part_stored(
    types: &Types,
    consts: &ConstAggregates,
    part: Option<ExpressionFact>,
) -> Option<ExpressionFact>
    requires { IsKnownPart types.now part }
    ensures stored { part_seen types.now result ≡ part_stored (is_among consts.now) (part_seen types.now part) }
    ensures known { IsKnownPart types.now result }
{
    match part {
        None => None,
        Some(place) => Some(place_stored(types, consts, place)),
    }
}

// The same with the type of its value, which stays.
fn value_stored(types: &Types, consts: &ConstAggregates, place: Valued) -> Valued
    requires { IsValued types.now place }
    ensures stored { fact_seen types.now result.fact ≡ place_stored (is_among consts.now) (fact_seen types.now place.fact) }
    ensures known { IsValued types.now result }
{
    Valued {
        fact: place_stored(types, consts, place.fact),
        value: place.value,
    }
}

/// The same of a part with the type of its value.
pub fn valued_stored(
    types: &Types,
    consts: &ConstAggregates,
    part: Option<Valued>,
) -> Option<Valued>
    requires { IfSome part (IsValued types.now) }
    ensures stored { valued_part types.now result ≡ part_stored (is_among consts.now) (valued_part types.now part) }
    ensures known { IfSome result (IsValued types.now) }
{
    match part {
        None => None,
        Some(place) => Some(value_stored(types, consts, place)),
    }
}
