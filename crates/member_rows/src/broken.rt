// Constraints that are broken at a token, and void values that are used. Rows aren't known here.
ghost use Rattle.std.specs.Prelude.{◌≡◌, Some, option_map};
ghost use Rattle.meaning_rules.specs.Rules.{least_broken};
ghost use Rattle.meaning_types.specs.Spaces.{is_void};
ghost use Rattle.meaning_typing.specs.Members.{void_value_used};
ghost use Rattle.expression_rows.specs.Rows.{broken_at, broken_seen};
ghost use Rattle.member_rows.specs.Selections.{broken_named};
ghost use Rattle.node_facts.specs.Facts.{IsKnownFact, fact_seen};

use c_types::Types;
use expression_rows::{Broken, broken_at, is_void};
use node_facts::ExpressionFact;
use sparse_model::{ErrorKind, NameId};

/// This constraint, whose text tells a name.
pub fn broken_named(constraint: ErrorKind, token: u32, name: NameId) -> Option<Broken>
    ensures { result ≡ Some (broken_named constraint token name) }
{
    Some(Broken {
        constraint,
        token,
        name,
    })
}

/// A void value is used, but nothing of a void place is.
#[tactic(auto, using(crate::proofs::ValueLemmas::is_void_value))]
pub fn void_value_used(types: &Types, token: u32, of: ExpressionFact) -> Option<Broken>
    requires { IsKnownFact types.now of }
    ensures { option_map broken_seen result ≡ least_broken (void_value_used token (fact_seen types.now of)) }
{
    if of.marks.is_place {
        return None;
    }
    if is_void(types, of.node.of) {
        broken_at(ErrorKind::VoidValueUsed, token)
    } else {
        None
    }
}
