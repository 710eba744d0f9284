// What a row says: what is known, the least constraint that is broken, and which rules fail.
ghost use Rattle.std.specs.Prelude.{◌≡◌, ◌∷◌, [], None, Some, option_map};
ghost use Rattle.meaning_rules.specs.Rules as meaning;
ghost use Rattle.expression_rows.specs.Facts.{part_seen};
ghost use Rattle.expression_rows.specs.Rows.{broken_at, broken_row, broken_seen, given_row, no_failures, only_failure, plain_failure};

use node_facts::ExpressionFact;
use sparse_model::{ErrorKind, Failure, NameId, RuleCode, TypeId};

/// A constraint that is broken at a token. The name is empty where its text has none.
#[derive(Clone, Copy, Debug, PartialEq, Eq)]
pub struct Broken {
    pub constraint: ErrorKind,
    pub token: u32,
    pub name: NameId,
}

/// The failures of one node but a call, in order: there are two at most.
#[derive(Clone, Copy)]
pub struct RowFailures {
    pub first: Option<Failure>,
    pub second: Option<Failure>,
}

/// The row of a node.
#[derive(Clone, Copy)]
pub struct Row {
    /// What is known of it: nothing where it breaks a constraint, or what is asked of a part isn't known.
    pub fact: Option<ExpressionFact>,
    /// Of the constraints that it breaks the least, by the token and then by the number of the error.
    pub broken: Option<Broken>,
    pub failures: RowFailures,
}

/// This constraint is broken at this token.
pub fn broken_at(constraint: ErrorKind, token: u32) -> Option<Broken>
    ensures { result ≡ Some (broken_at constraint token) }
{
    Some(Broken {
        constraint,
        token,
        name: NameId(0),
    })
}

// At an earlier token, or there with a lower number.
fn goes_before(broken: Broken, other: Broken) -> bool
    ensures { result ≡ meaning.goes_before (broken_seen broken) (broken_seen other) }
{
    broken.token < other.token
        || (broken.token == other.token && broken.constraint.number() < other.constraint.number())
}

// The lesser of two.
fn lesser_of(broken: Broken, other: Broken) -> Broken
    ensures { Some (broken_seen result) ≡ meaning.lesser (Some (broken_seen broken)) (Some (broken_seen other)) }
{
    if goes_before(other, broken) {
        other
    } else {
        broken
    }
}

/// The lesser of two, where the other one goes only if it is before.
pub fn lesser(broken: Option<Broken>, other: Option<Broken>) -> Option<Broken>
    ensures { option_map broken_seen result ≡ meaning.lesser (option_map broken_seen broken) (option_map broken_seen other) }
{
    match (broken, other) {
        (None, _) => other,
        (Some(first), None) => Some(first),
        (Some(first), Some(second)) => Some(lesser_of(first, second)),
    }
}

/// A rule fails at a token, where its text speaks of a part and of types alone.
pub fn failed(
    rule: RuleCode,
    token: u32,
    part: u16,
    first: Option<TypeId>,
    second: Option<TypeId>,
) -> Failure
    ensures { result ≡ plain_failure rule token part first second }
{
    Failure {
        token,
        rule,
        part,
        first,
        second,
        name: NameId(0),
        number: 0,
        wanted: 0,
    }
}

impl RowFailures {
    /// No rule fails.
    pub fn none() -> RowFailures
        ensures { result ≡ no_failures }
    {
        RowFailures {
            first: None,
            second: None,
        }
    }

    /// One rule, if it fails.
    pub fn only(failure: Option<Failure>) -> RowFailures
        ensures { result ≡ only_failure failure }
    {
        RowFailures {
            first: failure,
            second: None,
        }
    }
}

impl Row {
    /// Nothing is known, and nothing is said.
    pub fn nothing() -> Row
        ensures { result ≡ broken_row None no_failures }
    {
        Row::breaks(None, RowFailures::none())
    }

    /// Nothing is known.
    pub fn breaks(broken: Option<Broken>, failures: RowFailures) -> Row
        ensures { result ≡ broken_row broken failures }
    {
        Row {
            fact: None,
            broken,
            failures,
        }
    }

    /// This is known, unless something is broken.
    pub fn gives(fact: ExpressionFact, broken: Option<Broken>, failures: RowFailures) -> Row
        ensures { result ≡ given_row fact broken failures }
    {
        match broken {
            None => Row {
                fact: Some(fact),
                broken: None,
                failures,
            },
            Some(least) => Row::breaks(Some(least), failures),
        }
    }
}
