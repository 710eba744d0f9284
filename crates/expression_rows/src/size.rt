// `sizeof` and `_Alignof` (C11 6.5.3.4).
ghost use Rattle.std.specs.Prelude.{◌≡◌, IfOk, OnOk, option_map};
ghost use Rattle.meaning_rules.specs.Rules.{least_broken};
ghost use Rattle.meaning_typing.specs.Casts as meaning;
ghost use Rattle.c_types.specs.Layouts.{told_in};
ghost use Rattle.c_types.specs.Table.{IsTypeId, type_at};
ghost use Rattle.node_facts.specs.Facts.{IsKnownNodeFact, node_seen};
ghost use Rattle.node_facts.specs.Growing.{TypesJoin};
ghost use Rattle.expression_rows.specs.Outcomes.{IsKnownOutcome, outcome_seen};
ghost use Rattle.expression_rows.specs.Rows.{IsKnownRow, broken_seen, row_seen, told};

use crate::outcome::{Given, GivenType, Outcome, finish};
use crate::row::{Broken, Row, RowFailures, broken_at};
use crate::sort::has_no_size;
use c_types::Types;
use node_facts::NodeFact;
use sparse_model::{ErrorKind, IntKind, TypeId};
use std::alloc::AllocError;

// A type is measured, or that of a bit-field of so many bits.
fn measured_broken(types: &Types, token: u32, of: TypeId, width: Option<u32>) -> Option<Broken>
    requires { IsTypeId types.now of }
    ensures { option_map broken_seen result ≡ least_broken (meaning.measured_broken (told_in types.now) token (type_at types.now of) width) }
{
    match width {
        Some(_) => broken_at(ErrorKind::BadBitField, token),
        None => {
            if has_no_size(types, of) {
                broken_at(ErrorKind::IncompleteType, token)
            } else {
                None
            }
        }
    }
}

#[tactic(auto, using(crate::proofs::LeastLemmas::unless_told))]
fn measured(types: &Types, token: u32, of: TypeId, width: Option<u32>) -> Outcome
    requires { IsTypeId types.now of }
    ensures row { outcome_seen types.now result ≡ told (meaning.measured (told_in types.now) token (type_at types.now of) width) }
    ensures known { IsKnownOutcome types.now result }
{
    Outcome::gives(
        Given::value(GivenType::Integer(IntKind::ULong)),
        measured_broken(types, token, of, width),
        RowFailures::none(),
    )
}

// By what is known of the part.
fn measured_part(types: &Types, token: u32, part: NodeFact) -> Outcome
    requires { IsKnownNodeFact types.now part }
    ensures row { outcome_seen types.now result ≡ told (meaning.sizeof_row (told_in types.now) token (node_seen types.now part)) }
    ensures known { IsKnownOutcome types.now result }
{
    match part {
        NodeFact::Unknown => Outcome::nothing(),
        NodeFact::Expression(expression) => measured(
            types,
            token,
            expression.node.of,
            expression.node.value.width,
        ),
        NodeFact::Specified(_) => Outcome::nothing(),
        NodeFact::Declared(_) => Outcome::nothing(),
        NodeFact::NamedType(of) => measured(types, token, of, None),
    }
}

/// The row of `sizeof` or `_Alignof` at this token, by what is known of its part. It takes a few steps.
pub fn judge_size(types: &mut Types, token: u32, part: NodeFact) -> Result<Row, AllocError>
    requires { IsKnownNodeFact types.old part }
    ensures row { IfOk result (λ row. row_seen types.new row ≡ told (meaning.sizeof_row (told_in types.old) token (node_seen types.old part))) }
    ensures known { IfOk result (IsKnownRow types.new) }
    ensures keeps { OnOk result (TypesJoin types.old types.new) }
{
    let outcome = measured_part(types, token, part);
    finish(types, outcome)
}
