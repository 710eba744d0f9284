// What a member's name breaks (C11 6.2.1 p3): the declarator of a member and what is kept of names in, the constraint out.
ghost use Rattle.std.specs.Prelude.{◌≡◌, ◌<◌, List, length, option_map, true};
ghost use Rattle.meaning_rules.specs.Rules.{least_broken};
ghost use Rattle.meaning_typing.specs.MemberRows as meaning;
ghost use Rattle.meaning_typing.specs.Surroundings as around;
ghost use Rattle.decl_judge.specs.Units.{nodes_of};
ghost use Rattle.expression_rows.specs.Rows.{broken_seen};
ghost use Rattle.member_names.specs.Kept.{AreTwice};

use crate::names::MemberNames;
use c_tree::{Handle, Unit};
use expression_rows::Broken;
use sparse_model::ErrorKind;

/// What is broken at the declarator of a member: `MemberDeclaredTwice` at its token, if an earlier member has its name in an
/// aggregate of which both are members. It takes a few steps and one look-up.
pub fn name_broken(unit: &Unit, names: &MemberNames, handle: Handle) -> Option<Broken>
    requires whole { unit.now.first ≡ 0 }
    requires node { handle < length unit.now.nodes }
    ensures { (surroundings : List around.Surrounding) → AreTwice (nodes_of unit.now) surroundings names.now → meaning.is_member_declarator (nodes_of unit.now) surroundings handle ≡ true → option_map broken_seen result ≡ least_broken (meaning.name_broken (nodes_of unit.now) surroundings handle) }
{
    if !names.is_declared_twice(handle) {
        return None;
    }
    let node = unit.node(handle);
    Some(Broken {
        constraint: ErrorKind::MemberDeclaredTwice,
        token: node.token,
        name: node.name,
    })
}
