// The row of a width (C11 6.7.2.1 p4, p5): the type of its declarator and what is known of its expression in, the row out.
ghost use Rattle.std.specs.Prelude.{◌≡◌, Some, IfSome, option_map};
ghost use Rattle.meaning_rules.specs.Rules.{least_broken};
ghost use Rattle.meaning_typing.specs.MemberRows as meaning;
ghost use Rattle.c_types.specs.Table.{IsTypeId, type_at};
ghost use Rattle.node_facts.specs.Facts.{IsKnownNodeFact, node_seen};
ghost use Rattle.expression_rows.specs.Rows.{broken_seen, failure_listed, told};
ghost use Rattle.member_declarations.specs.Seen.{row_seen};
ghost use Rattle.member_declarations.specs.Widths.{broken_in, failures_in, one_bit_signed};

use crate::numbers::{is_good_width, is_one};
use crate::row::MemberRow;
use c_types::{Outline, Types, has_sign};
use expression_rows::{Broken, broken_at, lesser};
use node_facts::NodeFact;
use sparse_model::{ErrorKind, Failure, IntKind, NameId, RuleCode, TypeId};

// What is broken by a width of a bit-field of this kind.
fn broken_by_kind(
    types: &Types,
    token: u32,
    is_named: bool,
    kind: IntKind,
    size: NodeFact,
) -> Option<Broken>
    requires { IsKnownNodeFact types.now size }
    ensures { option_map broken_seen result ≡ least_broken (meaning.kind_width_broken token is_named kind (node_seen types.now size)) }
{
    if is_good_width(types, is_named, kind, size) {
        None
    } else {
        broken_at(ErrorKind::BadBitField, token)
    }
}

// And of one of such a type: only integers are bit-fields (p5), and no restricted ones.
fn broken_by_width(
    types: &Types,
    token: u32,
    is_named: bool,
    outline: Outline,
    size: NodeFact,
) -> Option<Broken>
    requires { IsKnownNodeFact types.now size }
    ensures { option_map broken_seen result ≡ least_broken (broken_in outline token is_named (node_seen types.now size)) }
{
    match outline {
        Outline::Integer(kind) => broken_by_kind(types, token, is_named, kind, size),
        Outline::Restricted(kind, _) => lesser(
            broken_by_kind(types, token, is_named, kind, size),
            broken_at(ErrorKind::RestrictedBitField, token),
        ),
        _ => broken_at(ErrorKind::BadBitField, token),
    }
}

fn one_bit_signed(token: u32) -> Failure
    ensures { result ≡ one_bit_signed token }
{
    Failure {
        token,
        rule: RuleCode::S7,
        part: 0,
        first: None,
        second: None,
        name: NameId(0),
        number: 0,
        wanted: 0,
    }
}

// A signed one of one bit can't be 1.
fn failure_of_width(types: &Types, token: u32, outline: Outline, size: NodeFact) -> Option<Failure>
    requires { IsKnownNodeFact types.now size }
    ensures { failure_listed types.now result ≡ failures_in outline token (node_seen types.now size) }
{
    match outline {
        Outline::Integer(kind) => {
            if has_sign(kind) && is_one(types, size) {
                Some(one_bit_signed(token))
            } else {
                None
            }
        }
        _ => None,
    }
}

fn width_of_type(types: &Types, token: u32, is_named: bool, of: TypeId, size: NodeFact) -> MemberRow
    requires of { IsTypeId types.now of }
    requires size { IsKnownNodeFact types.now size }
    ensures row { row_seen types.now result ≡ told (meaning.width_row token is_named (Some (type_at types.now of)) (node_seen types.now size)) }
    ensures known { IsKnownNodeFact types.now result.fact }
{
    let outline = types.outline(of);
    let broken = broken_by_width(types, token, is_named, outline, size);
    MemberRow::unless(broken, size, failure_of_width(types, token, outline, size))
}

/// The row of a width, whose declarator stands at this token with a name or without one and declares this type, if that is known.
/// `BadBitField` is broken at the declarator where the type is none of integers, or where the number isn't one of bits that it has,
/// or 0 behind a name; `RestrictedBitField` where the type is restricted. S7 fails for one bit of a signed kind. What is known of
/// the width is what is known of its expression. It takes a few steps.
pub fn judge_width(
    types: &Types,
    token: u32,
    is_named: bool,
    of: Option<TypeId>,
    size: NodeFact,
) -> MemberRow
    requires of { IfSome of (IsTypeId types.now) }
    requires size { IsKnownNodeFact types.now size }
    ensures row { row_seen types.now result ≡ told (meaning.width_row token is_named (option_map (type_at types.now) of) (node_seen types.now size)) }
    ensures known { IsKnownNodeFact types.now result.fact }
{
    match of {
        Some(of) => width_of_type(types, token, is_named, of, size),
        None => MemberRow::known(size),
    }
}
