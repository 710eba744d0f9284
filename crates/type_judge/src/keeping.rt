// What is kept where one node more is known: of labels and jumps, and of all that rows ask.
ghost use Rattle.std.specs.Prelude.{◌≡◌, ◌+◌, ◌++◌, ◌<◌, ◌∷◌, [], OnOk, length};
ghost use Rattle.meaning_tree.specs.Laid.{IsLaid};
ghost use Rattle.meaning_tree.specs.Nodes.{end_of};
ghost use Rattle.c_types.specs.Table.{Extends};
ghost use Rattle.decl_judge.specs.Units.{nodes_of};
ghost use Rattle.node_facts.specs.Facts.{IsKnownNodeFact, node_seen};
ghost use Rattle.node_facts.specs.Growing.{TypesJoin};
ghost use Rattle.node_judge.specs.Known.{IsKnownOf, facts_seen, table_of};
ghost use Rattle.node_surroundings.specs.Seen.{surroundings_seen};
ghost use Rattle.statement_judge.specs.Later.{SwitchValuesStandBefore};
ghost use Rattle.statement_judge.specs.Statements.{IsKeptOf};

use c_tree::{Handle, Unit};
use node_facts::NodeFact;
use node_judge::{Declarations, Known};
use node_surroundings::Surroundings;
use statement_judge::Statements;
use std::alloc::{AllocError, Global};

// Keeps a node among the labels and jumps, if it is one.
fn keep_statement(
    unit: &Unit,
    surroundings: &Surroundings,
    known: &mut Known,
    statements: &mut Statements,
    handle: Handle,
) -> Result<(), AllocError>
    requires whole { unit.now.first ≡ 0 }
    requires laid { IsLaid unit.now }
    requires node { handle < end_of unit.now }
    requires surroundings { length surroundings.now ≡ length unit.now.nodes }
    requires order { SwitchValuesStandBefore (nodes_of unit.now) (surroundings_seen surroundings.now) }
    requires known { IsKnownOf (nodes_of unit.now) (surroundings_seen surroundings.now) handle (facts_seen known.old) known.old }
    requires kept { IsKeptOf (nodes_of unit.now) (surroundings_seen surroundings.now) (facts_seen known.old) handle statements.old }
    ensures known { OnOk result (IsKnownOf (nodes_of unit.now) (surroundings_seen surroundings.now) handle (facts_seen known.old) known.new) }
    ensures types { OnOk result (TypesJoin (table_of known.old) (table_of known.new)) }
    ensures kept { OnOk result (IsKeptOf (nodes_of unit.now) (surroundings_seen surroundings.now) (facts_seen known.old) (handle + 1) statements.new) }
{
    let Known { declarations, .. } = known;
    let Declarations { types, facts, .. } = declarations;
    statements.add(unit, surroundings, types, facts, handle)
}

/// The next node is known, which has this handle: it is kept among the labels and jumps, and then among all nodes that are
/// known. It takes a few steps, and one for each part and for each part of its type.
///
/// # Errors
/// Want of memory, where [`Known::add`] has it.
pub fn keep(
    alloc: Global,
    unit: &Unit,
    surroundings: &Surroundings,
    known: &mut Known,
    statements: &mut Statements,
    handle: Handle,
    fact: NodeFact,
) -> Result<(), AllocError>
    requires whole { unit.now.first ≡ 0 }
    requires laid { IsLaid unit.now }
    requires node { handle < end_of unit.now }
    requires surroundings { length surroundings.now ≡ length unit.now.nodes }
    requires order { SwitchValuesStandBefore (nodes_of unit.now) (surroundings_seen surroundings.now) }
    requires known { IsKnownOf (nodes_of unit.now) (surroundings_seen surroundings.now) handle (facts_seen known.old) known.old }
    requires kept { IsKeptOf (nodes_of unit.now) (surroundings_seen surroundings.now) (facts_seen known.old) handle statements.old }
    requires ids { IsKnownNodeFact (table_of known.old) fact }
    ensures known { OnOk result (IsKnownOf (nodes_of unit.now) (surroundings_seen surroundings.now) (handle + 1) (facts_seen known.old ++ node_seen (table_of known.old) fact ∷ []) known.new) }
    ensures types { OnOk result (Extends (table_of known.old) (table_of known.new)) }
    ensures kept { OnOk result (IsKeptOf (nodes_of unit.now) (surroundings_seen surroundings.now) (facts_seen known.old ++ node_seen (table_of known.old) fact ∷ []) (handle + 1) statements.new) }
{
    keep_statement(unit, surroundings, known, statements, handle)?;
    known.add(alloc, unit, surroundings, handle, fact)
}
