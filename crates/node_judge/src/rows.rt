// The row of each node by its kind.
ghost use Rattle.std.specs.Prelude.{◌≡◌, ◌≢◌, ◌<◌, false, true, All, IfOk, OnOk, length};
ghost use Rattle.vocabulary.specs.declared.node_kind.NodeKind.TheVariants as kinds;
ghost use Rattle.meaning_tree.specs.Laid.{IsLaid};
ghost use Rattle.meaning_tree.specs.Nodes.{end_of};
ghost use Rattle.meaning_typing.specs.Units.{kind_at as kind_of};
ghost use Rattle.meaning_typing.specs.WholeTyping.{whole_row_at};
ghost use Rattle.decl_judge.specs.Units.{nodes_of};
ghost use Rattle.expr_judge.specs.Rows.{Tells};
ghost use Rattle.node_facts.specs.Facts.{IsKnownNodeFact};
ghost use Rattle.node_surroundings.specs.Seen.{AreSurroundingsOf, surroundings_seen};
ghost use Rattle.specifier_judge.specs.Kinds.{is_of_specifiers};
ghost use Rattle.whole_judge.specs.Kinds.{is_of_unit};
ghost use Rattle.node_judge.specs.Known.{IsKnownOf, facts_seen, table_of};
ghost use Rattle.node_judge.specs.Rows.{is_of_facts, row_over};

use crate::known::Known;
use crate::loaded::is_for_value;
use crate::members::declarator;
use crate::names::name;
use crate::statements::return_statement;
use crate::widths::bit_field;
use c_tree::{Handle, Unit};
use c_types::Types;
use declaration_judge::{
    Declarations, array_declarator, function_declarator, parameter, static_assertion, unit_end,
};
use expr_judge::NodeRow;
use node_facts::{NodeFact, NodeFacts};
use node_surroundings::Surroundings;
use sparse_model::{FailureList, NodeKind};
use specifier_judge::{is_of_specifiers, judge_specifier};
use std::alloc::{AllocError, Global};
use whole_judge::row_of_expression;

// Whether a node asks of what is kept no more than types and what is known of nodes.
fn is_of_facts(kind: NodeKind) -> bool
    ensures { result ≡ is_of_facts kind }
{
    match kind {
        NodeKind::ArrayDeclarator => true,
        NodeKind::FunctionDeclarator => true,
        NodeKind::Parameter => true,
        NodeKind::BitFieldWidth => true,
        NodeKind::StaticAssertion => true,
        NodeKind::ReturnStatement => true,
        _ => false,
    }
}

// The row of such a node.
fn row_of_facts(
    unit: &Unit,
    surroundings: &Surroundings,
    types: &mut Types,
    facts: &NodeFacts,
    found: &mut FailureList,
    handle: Handle,
    kind: NodeKind,
) -> Result<NodeRow, AllocError>
    requires whole { unit.now.first ≡ 0 }
    requires laid { IsLaid unit.now }
    requires node { handle < end_of unit.now }
    requires surroundings { AreSurroundingsOf unit.now surroundings.now }
    requires all { length surroundings.now ≡ length unit.now.nodes }
    requires kind { kind_of (nodes_of unit.now) handle ≡ kind }
    requires of { is_of_facts kind ≡ true }
    requires ids { All (IsKnownNodeFact types.old) facts.now }
    ensures { IfOk result (λ row. Tells types.old types.new found.old found.new row (row_over (nodes_of unit.now) (surroundings_seen surroundings.now) types.old facts.now handle kind)) }
{
    match kind {
        NodeKind::ArrayDeclarator => Ok(array_declarator(unit, types, facts, handle)),
        NodeKind::FunctionDeclarator => function_declarator(unit, found, handle),
        NodeKind::Parameter => parameter(unit, surroundings, types, facts, handle),
        NodeKind::BitFieldWidth => bit_field(unit, surroundings, types, facts, found, handle),
        NodeKind::StaticAssertion => Ok(static_assertion(unit, types, facts, handle)),
        NodeKind::ReturnStatement => {
            return_statement(unit, surroundings, types, facts, found, handle)
        }
        _ => Ok(NodeRow::known(NodeFact::Unknown)),
    }
}

// The row of any other node that is neither a specifier, a declarator, a name nor the unit.
fn row_by_facts(
    alloc: Global,
    unit: &Unit,
    surroundings: &Surroundings,
    known: &mut Known,
    found: &mut FailureList,
    handle: Handle,
    kind: NodeKind,
) -> Result<NodeRow, AllocError>
    requires whole { unit.now.first ≡ 0 }
    requires laid { IsLaid unit.now }
    requires node { handle < end_of unit.now }
    requires surroundings { AreSurroundingsOf unit.now surroundings.now }
    requires all { length surroundings.now ≡ length unit.now.nodes }
    requires kind { kind_of (nodes_of unit.now) handle ≡ kind }
    requires specifies { is_of_specifiers kind ≡ false }
    requires declares { kind ≢ kinds.Declarator }
    requires names { kind ≢ kinds.Name }
    requires ends { kind ≢ kinds.TranslationUnit }
    requires known { IsKnownOf (nodes_of unit.now) (surroundings_seen surroundings.now) handle (facts_seen known.old) known.old }
    ensures says { IfOk result (λ row. Tells (table_of known.old) (table_of known.new) found.old found.new row (row_over (nodes_of unit.now) (surroundings_seen surroundings.now) (table_of known.old) known.old.declarations.facts handle kind)) }
    ensures keeps { OnOk result (IsKnownOf (nodes_of unit.now) (surroundings_seen surroundings.now) handle (facts_seen known.old) known.new) }
{
    let Known {
        declarations,
        consts,
        ..
    } = known;
    let Declarations { types, facts, .. } = declarations;
    if is_of_facts(kind) {
        return row_of_facts(unit, surroundings, types, facts, found, handle, kind);
    }
    let is_valued = is_for_value(surroundings.get(handle).want);
    row_of_expression(alloc, unit, types, consts, facts, handle, is_valued, found)
}

// The row of specifiers, of one that names a type, or of a name of a type.
fn specifier(
    alloc: Global,
    unit: &Unit,
    surroundings: &Surroundings,
    known: &mut Known,
    found: &mut FailureList,
    handle: Handle,
) -> Result<NodeRow, AllocError>
    requires whole { unit.now.first ≡ 0 }
    requires node { handle < end_of unit.now }
    requires all { length surroundings.now ≡ length unit.now.nodes }
    requires specifies { is_of_specifiers (kind_of (nodes_of unit.now) handle) ≡ true }
    requires known { IsKnownOf (nodes_of unit.now) (surroundings_seen surroundings.now) handle (facts_seen known.old) known.old }
    ensures says { IfOk result (λ row. Tells (table_of known.old) (table_of known.new) found.old found.new row (row_over (nodes_of unit.now) (surroundings_seen surroundings.now) (table_of known.old) known.old.declarations.facts handle (kind_of (nodes_of unit.now) handle))) }
    ensures keeps { OnOk result (IsKnownOf (nodes_of unit.now) (surroundings_seen surroundings.now) handle (facts_seen known.old) known.new) }
{
    let Known {
        declarations,
        tags,
        ..
    } = known;
    let Declarations { types, facts, .. } = declarations;
    judge_specifier(alloc, unit, surroundings, tags, types, facts, found, handle)
}

// The row of a name.
fn name_used(
    unit: &Unit,
    surroundings: &Surroundings,
    known: &mut Known,
    found: &mut FailureList,
    handle: Handle,
) -> Result<NodeRow, AllocError>
    requires whole { unit.now.first ≡ 0 }
    requires node { handle < end_of unit.now }
    requires all { length surroundings.now ≡ length unit.now.nodes }
    requires kind { kind_of (nodes_of unit.now) handle ≡ kinds.Name }
    requires known { IsKnownOf (nodes_of unit.now) (surroundings_seen surroundings.now) handle (facts_seen known.old) known.old }
    ensures says { IfOk result (λ row. Tells (table_of known.old) (table_of known.new) found.old found.new row (row_over (nodes_of unit.now) (surroundings_seen surroundings.now) (table_of known.old) known.old.declarations.facts handle kinds.Name)) }
    ensures keeps { OnOk result (IsKnownOf (nodes_of unit.now) (surroundings_seen surroundings.now) handle (facts_seen known.old) known.new) }
{
    let Known {
        declarations,
        enumerations,
        ..
    } = known;
    let Declarations {
        types,
        facts,
        linked,
        ..
    } = declarations;
    name(
        unit,
        surroundings,
        types,
        facts,
        linked,
        enumerations,
        found,
        handle,
    )
}

/// The row of a node over what is known of those before it: what is known of it, the least constraint that it breaks, and the token
/// at which it passes the limit of the size of an object. The rules that fail are appended, but those of accesses. Types may join those
/// that are known; the node itself isn't known yet ([`Known::add`]). It takes a few steps, and one for each part; for a specifier of a
/// structure or a union one for each member too, and for the unit one for each object that is tentative.
///
/// # Errors
/// Want of memory. It stands too for what no unit has that was read: a number of more than 32 bits, a specifier with two bodies, a
/// member outside of a list, and a width that is no part.
pub fn judge_node(
    alloc: Global,
    unit: &Unit,
    surroundings: &Surroundings,
    known: &mut Known,
    found: &mut FailureList,
    handle: Handle,
) -> Result<NodeRow, AllocError>
    requires whole { unit.now.first ≡ 0 }
    requires laid { IsLaid unit.now }
    requires node { handle < end_of unit.now }
    requires surroundings { AreSurroundingsOf unit.now surroundings.now }
    requires all { length surroundings.now ≡ length unit.now.nodes }
    requires known { IsKnownOf (nodes_of unit.now) (surroundings_seen surroundings.now) handle (facts_seen known.old) known.old }
    ensures says { IfOk result (λ row. Tells (table_of known.old) (table_of known.new) found.old found.new row (whole_row_at (nodes_of unit.now) (surroundings_seen surroundings.now) (facts_seen known.old) handle)) }
    ensures keeps { OnOk result (IsKnownOf (nodes_of unit.now) (surroundings_seen surroundings.now) handle (facts_seen known.old) known.new) }
{
    let kind = unit.kind(handle);
    if is_of_specifiers(kind) {
        return specifier(alloc, unit, surroundings, known, found, handle);
    }
    match kind {
        NodeKind::Declarator => declarator(alloc, unit, surroundings, known, found, handle),
        NodeKind::Name => name_used(unit, surroundings, known, found, handle),
        NodeKind::TranslationUnit => {
            Ok(unit_end(unit, surroundings, &known.declarations, handle))
        }
        _ => row_by_facts(alloc, unit, surroundings, known, found, handle, kind),
    }
}
