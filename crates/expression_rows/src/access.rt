// Accesses: a place is loaded or stored to (C11 6.3.2.1 p2, 6.5.16 p3).
ghost use Rattle.std.specs.Prelude.{◌≡◌, IfSome};
ghost use Rattle.meaning_operands.specs.Accesses.{access_answer};
ghost use Rattle.meaning_typing.specs.Facts as facts;
ghost use Rattle.meaning_typing.specs.Surroundings.{Surrounding};
ghost use Rattle.meaning_typing.specs.Typing as meaning;
ghost use Rattle.c_types.specs.Table.{IsTypeId, type_at};
ghost use Rattle.expression_rows.specs.Accesses.{access_failures_if, is_accessed_if};
ghost use Rattle.node_facts.specs.Facts.{IsKnownFact, fact_seen};
ghost use Rattle.expression_rows.specs.Facts.{IsKnownPart, part_seen};
ghost use Rattle.expression_rows.specs.Rows.{IsKnownFailure, failure_listed};

use crate::operand::{decays, is_void};
use crate::row::failed;
use c_types::Types;
use node_facts::ExpressionFact;
use space_rules::access_rule;
use sparse_model::{Failure, TypeId};

/// Whether it is a place whose value is loaded where it is wanted.
pub fn is_loaded(types: &Types, expression: ExpressionFact) -> bool
    requires { IsKnownFact types.now expression }
    ensures { result ≡ facts.is_loaded (fact_seen types.now expression) }
{
    expression.marks.is_place && !decays(types, expression.node.of)
}

// A place that is loaded or stored to; a void one isn't.
fn is_accessed(
    types: &Types,
    is_evaluated: bool,
    is_wanted: bool,
    expression: ExpressionFact,
) -> bool
    requires { IsKnownFact types.now expression }
    ensures { result ≡ is_accessed_if is_evaluated is_wanted (fact_seen types.now expression) }
{
    is_evaluated && is_wanted && is_loaded(types, expression) && !is_void(types, expression.node.of)
}

// What an access of a place of this type says.
fn access_failure(types: &Types, token: u32, place: TypeId) -> Option<Failure>
    requires { IsTypeId types.now place }
    ensures failure { failure_listed types.now result ≡ meaning.access_failure token (type_at types.now place) (access_answer (type_at types.now place)) }
    ensures known { IfSome result (IsKnownFailure types.now) }
{
    let rule = access_rule(types, place)?;
    Some(failed(rule, token, 0, Some(place), None))
}

// The same of an expression, if it is accessed.
fn access_of(
    types: &Types,
    token: u32,
    is_evaluated: bool,
    is_wanted: bool,
    expression: ExpressionFact,
) -> Option<Failure>
    requires { IsKnownFact types.now expression }
    ensures failure { failure_listed types.now result ≡ access_failures_if token is_evaluated is_wanted (facts.Expression (fact_seen types.now expression)) }
    ensures known { IfSome result (IsKnownFailure types.now) }
{
    if is_accessed(types, is_evaluated, is_wanted, expression) {
        access_failure(types, token, expression.node.of)
    } else {
        None
    }
}

/// The failure of an access of the expression that stands at this token: where it is evaluated, and its value or a
/// store to it is wanted.
pub fn judge_access(
    types: &Types,
    token: u32,
    is_evaluated: bool,
    is_wanted: bool,
    part: Option<ExpressionFact>,
) -> Option<Failure>
    requires { IsKnownPart types.now part }
    ensures failure { (surrounding : Surrounding) → surrounding.is_evaluated ≡ is_evaluated → meaning.accesses surrounding.want ≡ is_wanted → failure_listed types.now result ≡ meaning.access_failures token surrounding (part_seen types.now part) }
    ensures known { IfSome result (IsKnownFailure types.now) }
{
    match part {
        None => None,
        Some(expression) => access_of(types, token, is_evaluated, is_wanted, expression),
    }
}
