// The parts of an answer, each by what a law says of it.
ghost use Rattle.std.specs.Prelude.{◌≡◌, Some, None, if◌then◌else◌};
ghost use Rattle.meaning_operands.specs.Answers.{broken_demand, first_identity, given_identity, have_restricted, is_given_fouled, meet};
ghost use Rattle.meaning_operands.specs.Operators.{OneIdentity, OneType};
ghost use Rattle.c_types.specs.Operands.{identity_seen, typed_operand};
ghost use Rattle.c_types.specs.Table.{IsTypeId};
ghost use Rattle.bitwise_rules.specs.Seen.{demand_seen, foul_seen, gives_seen};

use crate::law::{Demand, FoulMark, ResultIdentity};
use crate::operands::{are_integers, complement_fouls, is_pointer, is_restricted};
use c_types::{Operand, Types, are_one_identity};
use sparse_model::{Restrict, RuleCode};

// Whether one is the constant 0, or both are of one restricted type, or both plain.
fn meet(types: &Types, left: Operand, right: Operand) -> bool
    requires left { IsTypeId types.now left.of }
    requires right { IsTypeId types.now right.of }
    ensures { result ≡ meet (typed_operand types.now left) (typed_operand types.now right) }
{
    left.zero || right.zero || are_one_identity(types.identity(left.of), types.identity(right.of))
}

// Two types are asked to be one of integers alone.
fn unlike(types: &Types, left: Operand, right: Operand) -> Option<RuleCode>
    requires left { IsTypeId types.now left.of }
    requires right { IsTypeId types.now right.of }
    ensures { result ≡ broken_demand OneType (typed_operand types.now left) (typed_operand types.now right) }
{
    if are_integers(types, left, right) && !meet(types, left, right) {
        Some(RuleCode::B2)
    } else {
        None
    }
}

// The rule, where one of them is restricted.
fn with_restricted(types: &Types, rule: RuleCode, left: Operand, right: Operand) -> Option<RuleCode>
    requires left { IsTypeId types.now left.of }
    requires right { IsTypeId types.now right.of }
    ensures { result ≡ (if have_restricted (typed_operand types.now left) (typed_operand types.now right) then Some rule else None) }
{
    if is_restricted(types, left.of) || is_restricted(types, right.of) {
        Some(rule)
    } else {
        None
    }
}

/// The rule that operands break by what is asked of them.
pub fn broken_demand(
    types: &Types,
    demand: Demand,
    left: Operand,
    right: Operand,
) -> Option<RuleCode>
    requires left { IsTypeId types.now left.of }
    requires right { IsTypeId types.now right.of }
    ensures { result ≡ broken_demand (demand_seen demand) (typed_operand types.now left) (typed_operand types.now right) }
{
    match demand {
        Demand::OneType => unlike(types, left, right),
        Demand::PlainOnly => with_restricted(types, RuleCode::B1, left, right),
        Demand::PlainStored => with_restricted(types, RuleCode::B7, left, right),
        Demand::Anything => None,
    }
}

// The first that there is.
fn first_identity(left: Option<Restrict>, right: Option<Restrict>) -> Option<Restrict>
    ensures { identity_seen result ≡ first_identity (identity_seen left) (identity_seen right) }
{
    match left {
        Some(restrict) => Some(restrict),
        None => right,
    }
}

// The left operand's, or else the right one's; beside a pointer the left one's.
fn one_identity(types: &Types, left: Operand, right: Operand) -> Option<Restrict>
    requires left { IsTypeId types.now left.of }
    requires right { IsTypeId types.now right.of }
    ensures { identity_seen result ≡ given_identity OneIdentity (typed_operand types.now left) (typed_operand types.now right) }
{
    if are_integers(types, left, right) {
        first_identity(types.identity(left.of), types.identity(right.of))
    } else {
        types.identity(left.of)
    }
}

/// The restricted identity of the result.
pub fn given_identity(
    types: &Types,
    gives: ResultIdentity,
    left: Operand,
    right: Operand,
) -> Option<Restrict>
    requires left { IsTypeId types.now left.of }
    requires right { IsTypeId types.now right.of }
    ensures { identity_seen result ≡ given_identity (gives_seen gives) (typed_operand types.now left) (typed_operand types.now right) }
{
    match gives {
        ResultIdentity::NoIdentity => None,
        ResultIdentity::OneIdentity => one_identity(types, left, right),
        ResultIdentity::OwnIdentity => types.identity(left.of),
        ResultIdentity::StoredIdentity => types.identity(left.of),
        ResultIdentity::LastIdentity => types.identity(right.of),
    }
}

/// Whether the result is fouled.
pub fn is_given_fouled(types: &Types, foul: FoulMark, left: Operand, right: Operand) -> bool
    requires left { IsTypeId types.now left.of }
    requires right { IsTypeId types.now right.of }
    ensures { result ≡ is_given_fouled (foul_seen foul) (typed_operand types.now left) (typed_operand types.now right) }
{
    match foul {
        FoulMark::NeverFouled => false,
        FoulMark::BothFouled => left.fouled && right.fouled,
        FoulMark::EitherFouled => (left.fouled || right.fouled)
            && !is_pointer(types, left.of)
            && !is_pointer(types, right.of),
        FoulMark::LastFouled => right.fouled,
        FoulMark::ComplementFouled => left.fouled || complement_fouls(types, left.of),
    }
}
