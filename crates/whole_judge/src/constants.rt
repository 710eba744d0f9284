// The constant of an expression, by layouts, offsets and sizes (C11 6.6). Names aren't asked here.
ghost use Rattle.std.specs.Prelude.{◌≡◌, ◌≢◌, ◌<◌, All, List};
ghost use Rattle.vocabulary.specs.declared.node_kind.NodeKind.TheVariants as kinds;
ghost use Rattle.meaning_tree.specs.Nodes.{end_of};
ghost use Rattle.meaning_typing.specs.Surroundings.{Surrounding};
ghost use Rattle.meaning_typing.specs.Units.{kind_at};
ghost use Rattle.decl_judge.specs.Units.{nodes_of};
ghost use Rattle.expr_judge.specs.Constants.{bits_of};
ghost use Rattle.member_rows.specs.Aggregates.{aggregates_in};
ghost use Rattle.node_facts.specs.Facts.{IsKnownNodeFact, nodes_seen};
ghost use Rattle.whole_judge.specs.Constants.{constant_of_node};

use c_tree::{Handle, Unit};
use c_types::Types;
use expr_judge::bits_folded;
use node_facts::{NodeFacts, fold};

/// The bits of the constant of a node that is no name, if it has one. It takes no memory, and one step; of `__builtin_offsetof` one
/// for each designator.
pub fn constant_bits(unit: &Unit, types: &Types, facts: &NodeFacts, handle: Handle) -> Option<u64>
    requires whole { unit.now.first ≡ 0 }
    requires node { handle < end_of unit.now }
    requires other { kind_at (nodes_of unit.now) handle ≢ kinds.Name }
    requires ids { All (IsKnownNodeFact types.now) facts.now }
    ensures { (surroundings : List Surrounding) → result ≡ bits_of (constant_of_node (aggregates_in types.now) (nodes_of unit.now) surroundings (nodes_seen types.now facts.now) handle) }
{
    bits_folded(fold(unit, types, facts.types(), handle))
}
