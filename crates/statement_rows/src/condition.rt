// Conditions and switch values (C11 6.8.4, 6.8.5), by what is known of them. What is a loop's body isn't known here.
ghost use Rattle.std.specs.Prelude.{◌≡◌, IfSome, None, Some, option_map};
ghost use Rattle.meaning_rules.specs.Rules.{least_broken};
ghost use Rattle.meaning_typing.specs.Operators as operators;
ghost use Rattle.meaning_statements.specs.Statements as meaning;
ghost use Rattle.expression_rows.specs.Facts.{IsValued, valued_part, valued_seen};
ghost use Rattle.expression_rows.specs.Rows.{IsKnownFailure, IsKnownRow, broken_seen, failure_listed, plain_failure, row_seen, told};
ghost use Rattle.expression_rows.specs.Sorts.{sort_in};
ghost use Rattle.statement_rows.specs.Rows.{unbraced_failure};

use c_types::{Outline, Types};
use expression_rows::{Broken, Row, RowFailures, Valued, broken_at};
use sparse_model::{ErrorKind, Failure, NameId, RuleCode, TypeId};

/// A rule fails at a token, where its text speaks of types alone.
pub fn failed(rule: RuleCode, token: u32, first: Option<TypeId>, second: Option<TypeId>) -> Failure
    ensures { result ≡ plain_failure rule token 0 first second }
{
    Failure {
        token,
        rule,
        part: 0,
        first,
        second,
        name: NameId(0),
        number: 0,
        wanted: 0,
    }
}

/// What fails where a value is tested at this token.
#[tactic(auto, using(crate::proofs::TestLemmas::tested_told))]
pub fn tested_failure(types: &Types, token: u32, of: Valued) -> Option<Failure>
    requires { IsValued types.now of }
    ensures failure { failure_listed types.now result ≡ operators.condition_failures token (valued_seen types.now of) }
    ensures known { IfSome result (IsKnownFailure types.now) }
{
    if of.fact.node.value.fouled {
        Some(failed(RuleCode::B5, token, Some(of.value), None))
    } else {
        None
    }
}

// Conditions

fn sort_broken(standing: u32, outline: Outline) -> Option<Broken>
    ensures { option_map broken_seen result ≡ least_broken (operators.condition_broken standing (sort_in outline)) }
{
    match outline {
        Outline::Void => broken_at(ErrorKind::VoidValueUsed, standing),
        Outline::Integer(_) => None,
        Outline::Restricted(_, _) => None,
        Outline::Pointer => None,
        _ => broken_at(ErrorKind::ConditionIsNotScalar, standing),
    }
}

#[tactic(auto, using(expression_rows::proofs::SortLemmas::sort_told))]
fn condition_broken(types: &Types, standing: u32, condition: Valued) -> Option<Broken>
    requires { IsValued types.now condition }
    ensures { option_map broken_seen result ≡ least_broken (operators.condition_broken standing (operators.value_sort (valued_seen types.now condition))) }
{
    sort_broken(standing, types.outline(condition.value))
}

// Of what is known.
fn condition_of(types: &Types, token: u32, standing: u32, condition: Valued) -> Row
    requires { IsValued types.now condition }
    ensures row { row_seen types.now result ≡ told (meaning.condition_row token standing (valued_part types.now (Some condition))) }
    ensures known { IsKnownRow types.now result }
{
    Row::breaks(
        condition_broken(types, standing, condition),
        RowFailures::only(tested_failure(types, token, condition)),
    )
}

/// The row of `if`, `while` or `for` at this token, whose condition stands at its own, by what is known of the condition. It takes a
/// few steps, and no memory.
pub fn judge_condition(types: &Types, token: u32, standing: u32, condition: Option<Valued>) -> Row
    requires { IfSome condition (IsValued types.now) }
    ensures row { row_seen types.now result ≡ told (meaning.condition_row token standing (valued_part types.now condition)) }
    ensures known { IsKnownRow types.now result }
{
    match condition {
        None => Row::nothing(),
        Some(condition) => condition_of(types, token, standing, condition),
    }
}

// `do`

fn unbraced(token: u32, braced: bool) -> Option<Failure>
    ensures { result ≡ unbraced_failure token braced }
{
    if braced {
        None
    } else {
        Some(failed(RuleCode::S5, token, None, None))
    }
}

// With a condition that is known.
fn do_of(types: &Types, token: u32, standing: u32, braced: bool, condition: Valued) -> Row
    requires { IsValued types.now condition }
    ensures row { row_seen types.now result ≡ told (meaning.do_row token standing braced (valued_part types.now (Some condition))) }
    ensures known { IsKnownRow types.now result }
{
    Row::breaks(
        condition_broken(types, standing, condition),
        RowFailures {
            first: tested_failure(types, token, condition),
            second: unbraced(token, braced),
        },
    )
}

/// The row of `do` at this token, whose condition stands at its own; `braced` says whether its body is a compound statement. It takes a
/// few steps, and no memory.
pub fn judge_do(
    types: &Types,
    token: u32,
    standing: u32,
    braced: bool,
    condition: Option<Valued>,
) -> Row
    requires { IfSome condition (IsValued types.now) }
    ensures row { row_seen types.now result ≡ told (meaning.do_row token standing braced (valued_part types.now condition)) }
    ensures known { IsKnownRow types.now result }
{
    match condition {
        None => Row::breaks(None, RowFailures::only(unbraced(token, braced))),
        Some(condition) => do_of(types, token, standing, braced, condition),
    }
}

// `switch`

fn switched_sort_broken(standing: u32, outline: Outline) -> Option<Broken>
    ensures { option_map broken_seen result ≡ least_broken (meaning.switched_broken standing (sort_in outline)) }
{
    match outline {
        Outline::Void => broken_at(ErrorKind::VoidValueUsed, standing),
        Outline::Integer(_) => None,
        Outline::Restricted(_, _) => None,
        _ => broken_at(ErrorKind::SwitchOnNoInteger, standing),
    }
}

#[tactic(auto, using(expression_rows::proofs::SortLemmas::sort_told))]
fn switched_broken(types: &Types, standing: u32, switched: Valued) -> Option<Broken>
    requires { IsValued types.now switched }
    ensures { option_map broken_seen result ≡ least_broken (meaning.switched_broken standing (operators.value_sort (valued_seen types.now switched))) }
{
    switched_sort_broken(standing, types.outline(switched.value))
}

// Of what is known.
fn switch_of(types: &Types, token: u32, standing: u32, switched: Valued) -> Row
    requires { IsValued types.now switched }
    ensures row { row_seen types.now result ≡ told (meaning.switch_row token standing (valued_part types.now (Some switched))) }
    ensures known { IsKnownRow types.now result }
{
    Row::breaks(
        switched_broken(types, standing, switched),
        RowFailures::only(tested_failure(types, token, switched)),
    )
}

/// The row of `switch` at this token, whose value stands at its own, by what is known of the value. It takes a few steps, and no memory.
pub fn judge_switch(types: &Types, token: u32, standing: u32, switched: Option<Valued>) -> Row
    requires { IfSome switched (IsValued types.now) }
    ensures row { row_seen types.now result ≡ told (meaning.switch_row token standing (valued_part types.now switched)) }
    ensures known { IsKnownRow types.now result }
{
    match switched {
        None => Row::nothing(),
        Some(switched) => switch_of(types, token, standing, switched),
    }
}
