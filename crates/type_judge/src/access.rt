// Accesses: a place is loaded or stored to (C11 6.3.2.1 p2, 6.5.16 p3).
ghost use Rattle.std.specs.Prelude.{◌≡◌, OnOk};
ghost use Rattle.meaning_typing.specs.Typing as meaning;
ghost use Rattle.node_facts.specs.Facts.{IsKnownNodeFact, node_seen};
ghost use Rattle.node_surroundings.specs.Seen.{surrounding_seen, want_seen};
ghost use Rattle.expression_rows.specs.Arguments.{Appends};

use c_types::Types;
use expr_judge::{append, expression_of};
use expression_rows::judge_access;
use node_facts::NodeFact;
use node_surroundings::{Surrounding, Want};
use sparse_model::FailureList;
use std::alloc::AllocError;

// A value or a store is wanted.
fn accesses(want: Want) -> bool
    ensures { result ≡ meaning.accesses (want_seen want) }
{
    match want {
        Want::ForValue => true,
        Want::ForStore => true,
        Want::ForPlace => false,
        Want::ForEffect => false,
        Want::ForNothing => false,
    }
}

/// Appends the failure of an access of the node that stands at this token, if it is accessed and fails.
pub fn access_node(
    types: &Types,
    token: u32,
    surrounding: Surrounding,
    fact: NodeFact,
    found: &mut FailureList,
) -> Result<(), AllocError>
    requires { IsKnownNodeFact types.now fact }
    ensures { OnOk result (Appends types.now found.old found.new (meaning.access_failures token (surrounding_seen surrounding) (node_seen types.now fact))) }
{
    let part = expression_of(fact);
    let is_wanted = accesses(surrounding.want);
    let failure = judge_access(types, token, surrounding.is_evaluated, is_wanted, part);
    append(found, failure)
}
