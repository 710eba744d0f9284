// Whether a static object may begin with an expression (C11 6.7.9 p4): a number, a null pointer, or an address.
ghost use Rattle.std.specs.Prelude.{◌≡◌, option_map};
ghost use Rattle.meaning_rules.specs.Rules.{least_broken};
ghost use Rattle.meaning_typing.specs.Conditionals as meaning;
ghost use Rattle.meaning_typing.specs.Facts.{Expression, decays};
ghost use Rattle.meaning_typing.specs.Operators as operators;
ghost use Rattle.c_types.specs.Table.{IsTypeId, type_at};
ghost use Rattle.node_facts.specs.Facts.{IsKnownFact, addressed_seen, fact_seen};
ghost use Rattle.expression_rows.specs.Rows.{broken_seen};
ghost use Rattle.leaf_rows.specs.Leaves.{not_constant_at};

use c_types::Types;
use expression_rows::{Broken, broken_at, is_array, is_function, number_of};
use node_facts::{Addressed, ExpressionFact};
use sparse_model::{ErrorKind, TypeId};

#[tactic(auto, using(crate::proofs::ConstantLemmas::decays_told))]
fn decays(types: &Types, t: TypeId) -> bool
    requires { IsTypeId types.now t }
    ensures { result ≡ decays (type_at types.now t) }
{
    is_array(types, t) || is_function(types, t)
}

// Whether the value of an expression that is so far an address constant, and decays or doesn't, is one.
fn is_address(address: Addressed, decays: bool) -> bool
    ensures { result ≡ meaning.is_address (operators.address_of_value (addressed_seen address) decays) }
{
    match (address, decays) {
        (Addressed::ConstantPlace, true) => true,
        (Addressed::ConstantPlace, false) => false,
        (Addressed::ConstantAddress, _) => true,
        (Addressed::NotAddress, _) => false,
    }
}

fn is_constant(types: &Types, fact: ExpressionFact) -> bool
    requires { IsKnownFact types.now fact }
    ensures { result ≡ meaning.is_constant (fact_seen types.now fact) }
{
    let decays = decays(types, fact.node.of);
    number_of(types, fact).is_some()
        || (fact.marks.is_null || is_address(fact.marks.address, decays))
}

/// What a leaf at this token breaks that isn't constant, where the object is static.
pub fn not_constant(
    types: &Types,
    is_static: bool,
    token: u32,
    fact: ExpressionFact,
) -> Option<Broken>
    requires { IsKnownFact types.now fact }
    ensures { option_map broken_seen result ≡ least_broken (not_constant_at is_static token (Expression (fact_seen types.now fact))) }
{
    if is_static && !is_constant(types, fact) {
        broken_at(ErrorKind::InitializerIsNotConstant, token)
    } else {
        None
    }
}
