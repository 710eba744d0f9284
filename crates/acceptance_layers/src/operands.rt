// What is said of two operands, of a conversion and of an access. All pairs of types and of operands are facts of
// `meaning_pairs`.
ghost use Rattle.std.specs.Prelude.{◌≡◌};

use crate::made_types::{int_in, pointer_to, restricted};
use bitwise_rules::operator_rule;
use c_types::{Operand, Types};
use space_rules::{
    ConvertAnswer, Position, access_rule, convert_rule, have_other_targets, mix_spaces,
};
use sparse_model::{Restrict, RuleCode, Space, TypeId};
use std::alloc::AllocError;
use std::process::Abort;
use std::test::Fail;
use vocabulary::Operator;

// An operand of this type, of which nothing else is known.
fn value(of: TypeId) -> Operand
    ensures { result.of ≡ of }
{
    Operand {
        of,
        fouled: false,
        zero: false,
    }
}

// A pointer loses the space of its target.
fn assert_mixed(rt: &impl Abort, types: &Types, from: TypeId, to: TypeId) {
    assert!(rt; types.knows(from) && types.knows(to));
    let answer = convert_rule(types, value(from), false, to, Position::Assignment);
    assert!(rt; answer == ConvertAnswer::Fails(RuleCode::A1));
    assert!(rt; mix_spaces(types, from, to));
}

fn assert_other_targets(rt: &impl Abort, types: &Types, from: TypeId, to: TypeId) {
    assert!(rt; types.knows(from) && types.knows(to));
    assert!(rt; have_other_targets(types, from, to));
}

fn assert_flagged(rt: &impl Abort, types: &Types, place: TypeId) {
    assert!(rt; types.knows(place));
    assert!(rt; access_rule(types, place) == Some(RuleCode::A4));
}

fn assert_conversions(rt: &impl Abort, types: &mut Types) -> Result<(), AllocError> {
    let int = int_in(types, Space::None)?;
    let far = int_in(types, Space::Number(1))?;
    let to_int = pointer_to(rt, types, int)?;
    let to_far = pointer_to(rt, types, far)?;
    let to_pointer = pointer_to(rt, types, to_int)?;
    assert_mixed(rt, types, to_far, to_int);
    assert_other_targets(rt, types, to_pointer, to_int);
    assert_flagged(rt, types, far);
    Ok(())
}

#[test]
fn a_pointer_loses_its_space(rt: HostRuntime) -> Result<(), Fail> {
    let mut types = Types::new(rt.alloc())?;
    assert_conversions(&rt, &mut types)?;
    Ok(())
}

// A fouled value is compared with one of another type, and joined with itself.
fn assert_answers(rt: &impl Abort, types: &Types, of: TypeId, other: TypeId) {
    assert!(rt; types.knows(of) && types.knows(other));
    let left = Operand {
        of,
        fouled: true,
        zero: false,
    };
    let compared = operator_rule(types, Operator::Equal, left, value(other));
    assert!(rt; compared.rule == Some(RuleCode::B2) && compared.tested);
    let joined = operator_rule(types, Operator::BitwiseOr, left, left);
    assert!(rt; joined.restrict == Some(Restrict(4)) && joined.fouled);
}

fn assert_operators(rt: &impl Abort, types: &mut Types) -> Result<(), AllocError> {
    let int = int_in(types, Space::None)?;
    let le16 = restricted(types, Restrict(4))?;
    assert_answers(rt, types, le16, int);
    Ok(())
}

#[test]
fn a_fouled_operand_meets_an_int(rt: HostRuntime) -> Result<(), Fail> {
    let mut types = Types::new(rt.alloc())?;
    assert_operators(&rt, &mut types)?;
    Ok(())
}
