// The judgement of one expression: its node in; what is known of it out, or the least constraint that it breaks. What stands around
// it isn't known here.
ghost use Rattle.std.specs.Prelude.{◌≡◌, ◌<◌, ◌++◌, [], IfErr, IfOk, OnErr, OnOk, length, take};
ghost use Rattle.meaning_tree.specs.Laid.{IsLaid};
ghost use Rattle.meaning_tree.specs.Nodes.{end_of};
ghost use Rattle.meaning_typing.specs.WholeTyping.{whole_row_at};
ghost use Rattle.decl_judge.specs.Units.{nodes_of};
ghost use Rattle.expression_rows.specs.Arguments.{Appends};
ghost use Rattle.node_facts.specs.Facts.{IsKnownNodeFact, node_seen};
ghost use Rattle.node_surroundings.specs.Seen.{AreSurroundingsOf, surroundings_seen};
ghost use Rattle.node_judge.specs.Judging.{IsRefusedFor, KeepsKnown, StaysKnown};
ghost use Rattle.node_judge.specs.Known.{IsKnownOf, facts_seen, table_of};

use crate::fault::ExprFault;
use crate::known::Known;
use crate::rows::judge_node;
use c_tree::{Handle, Unit};
use node_facts::NodeFact;
use node_surroundings::Surroundings;
use sparse_model::FailureList;
use std::alloc::{AllocError, Global};

// Appends all of these, or some where there is want of memory.
fn push_all(found: &mut FailureList, failures: &FailureList) -> Result<(), AllocError>
    ensures ok { OnOk result (found.new ≡ found.old ++ failures.now) }
    ensures before { take (length found.old) found.new ≡ found.old }
{
    for failure in failures.as_slice() {
        if let Err((fault, _)) = found.push(*failure) {
            return Err(fault);
        }
    }
    Ok(())
}

// Appends all of these, or none.
fn append_all(found: &mut FailureList, failures: &FailureList) -> Result<(), AllocError>
    ensures ok { OnOk result (found.new ≡ found.old ++ failures.now) }
    ensures err { OnErr result (found.new ≡ found.old) }
{
    let before = found.len();
    let pushed = push_all(found, failures);
    if pushed.is_err() {
        found.truncate(before);
    }
    pushed
}

/// What is known of an expression, by what is known of the nodes before it: of its parts, and for a name of all declarations of what it
/// names. The rules that fail at the expression and at its arguments are appended, but those of accesses, which its surroundings decide.
/// The expression itself isn't known yet ([`Known::add`]). Of any other node it answers the same, by its row. It takes the steps of
/// [`judge_node`].
///
/// # Errors
/// `Constraint` where the expression breaks one: the least, by its token and then by its number; what is known stands for the same.
/// Want of memory, as of [`judge_node`]. After either nothing was appended.
pub fn judge_expr(
    alloc: Global,
    unit: &Unit,
    surroundings: &Surroundings,
    known: &mut Known,
    e: Handle,
    found: &mut FailureList,
) -> Result<NodeFact, ExprFault>
    requires whole { unit.now.first ≡ 0 }
    requires laid { IsLaid unit.now }
    requires node { e < end_of unit.now }
    requires surroundings { AreSurroundingsOf unit.now surroundings.now }
    requires all { length surroundings.now ≡ length unit.now.nodes }
    requires known { IsKnownOf (nodes_of unit.now) (surroundings_seen surroundings.now) e (facts_seen known.old) known.old }
    ensures fact { IfOk result (λ fact. node_seen (table_of known.new) fact ≡ (whole_row_at (nodes_of unit.now) (surroundings_seen surroundings.now) (facts_seen known.old) e).fact) }
    ensures ids { IfOk result (IsKnownNodeFact (table_of known.new)) }
    ensures failures { OnOk result (Appends (table_of known.new) found.old found.new (whole_row_at (nodes_of unit.now) (surroundings_seen surroundings.now) (facts_seen known.old) e).failures) }
    ensures unbroken { OnOk result ((whole_row_at (nodes_of unit.now) (surroundings_seen surroundings.now) (facts_seen known.old) e).broken ≡ []) }
    ensures refused { IfErr result (IsRefusedFor (whole_row_at (nodes_of unit.now) (surroundings_seen surroundings.now) (facts_seen known.old) e)) }
    ensures as_before { OnErr result (found.new ≡ found.old) }
    ensures keeps { OnOk result (StaysKnown (nodes_of unit.now) (surroundings_seen surroundings.now) e known.old known.new) }
    ensures kept { IfErr result (KeepsKnown (nodes_of unit.now) (surroundings_seen surroundings.now) e known.old known.new) }
{
    let mut failures = FailureList::new(alloc);
    let row = judge_node(alloc, unit, surroundings, known, &mut failures, e)?;
    match row.broken {
        Some(broken) => Err(ExprFault::Constraint(broken)),
        None => {
            append_all(found, &failures)?;
            Ok(row.fact)
        }
    }
}
