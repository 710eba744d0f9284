// What one node more adds to the labels and the `goto`s that were read (C11 6.8.1, 6.8.6.1): nothing, where it is none of them.
ghost use Rattle.std.specs.Prelude.{◌≡◌, ◌++◌, All, List, OnOk, Some};
ghost use Rattle.vocabulary.specs.declared.node_kind.NodeKind.TheVariants as kinds;
ghost use Rattle.meaning_statements.specs.Above.{expressions_around, innermost};
ghost use Rattle.meaning_statements.specs.Jumps.{SeenGoto, SeenLabel, gotos_if, labels_if, switch_of};
ghost use Rattle.meaning_statements.specs.StatementRows.{SwitchLabel, switch_labels_if};
ghost use Rattle.meaning_typing.specs.Surroundings.{Surrounding};
ghost use Rattle.decl_judge.specs.Units.{nodes_of};
ghost use Rattle.node_facts.specs.Facts.{IsKnownNodeFact, nodes_seen};
ghost use Rattle.node_facts.specs.Growing.{TypesJoin};
ghost use Rattle.statement_judge.specs.Gotos.{StandsForGotos};
ghost use Rattle.statement_rows.specs.Labels.{StandsForLabels, StandsForNamed};

use crate::gotos::Gotos;
use crate::parts::{case_parts, name_at, part_token};
use c_tree::{Handle, Unit};
use c_types::Types;
use decl_judge::token_at;
use node_facts::NodeFacts;
use sparse_model::NodeKind;
use statement_rows::{FunctionLabel, FunctionLabels, SwitchLabels, number_of_label};
use std::alloc::AllocError;

// A `case` in this switch.
fn keep_case(
    unit: &Unit,
    types: &mut Types,
    facts: &NodeFacts,
    labels: &mut SwitchLabels,
    handle: Handle,
    switch: Handle,
) -> Result<(), AllocError>
    requires whole { unit.now.first ≡ 0 }
    requires ids { All (IsKnownNodeFact types.old) facts.now }
    ensures joins { OnOk result ((surroundings : List Surrounding) → switch_of (nodes_of unit.now) surroundings handle ≡ Some switch → (read : List SwitchLabel) → StandsForLabels labels.old read → StandsForLabels labels.new (switch_labels_if (nodes_of unit.now) surroundings (nodes_seen types.old facts.now) handle kinds.CaseStatement (Some switch) ++ read)) }
    ensures keeps { OnOk result (TypesJoin types.old types.new) }
{
    let parts = case_parts(unit, types, facts, handle, Some(switch))?;
    match number_of_label(types, parts.switched, parts.label) {
        Some(number) => {
            labels.add_case(switch, number, part_token(unit, handle, 0))?;
            Ok(())
        }
        None => Ok(()),
    }
}

// A node of this kind in this switch.
fn keep_in_switch(
    unit: &Unit,
    types: &mut Types,
    facts: &NodeFacts,
    labels: &mut SwitchLabels,
    handle: Handle,
    kind: NodeKind,
    switch: Handle,
) -> Result<(), AllocError>
    requires whole { unit.now.first ≡ 0 }
    requires ids { All (IsKnownNodeFact types.old) facts.now }
    ensures joins { OnOk result ((surroundings : List Surrounding) → switch_of (nodes_of unit.now) surroundings handle ≡ Some switch → (read : List SwitchLabel) → StandsForLabels labels.old read → StandsForLabels labels.new (switch_labels_if (nodes_of unit.now) surroundings (nodes_seen types.old facts.now) handle kind (Some switch) ++ read)) }
    ensures keeps { OnOk result (TypesJoin types.old types.new) }
{
    match kind {
        NodeKind::CaseStatement => {
            keep_case(unit, types, facts, labels, handle, switch)?;
            Ok(())
        }
        NodeKind::DefaultStatement => {
            labels.add_default(switch, token_at(unit, handle))?;
            Ok(())
        }
        _ => Ok(()),
    }
}

/// Keeps the node with this handle, which has this kind, among the labels of its switch, if it is one. It takes a few steps.
pub fn keep_switch_label(
    unit: &Unit,
    types: &mut Types,
    facts: &NodeFacts,
    labels: &mut SwitchLabels,
    handle: Handle,
    kind: NodeKind,
    switch: Option<Handle>,
) -> Result<(), AllocError>
    requires whole { unit.now.first ≡ 0 }
    requires ids { All (IsKnownNodeFact types.old) facts.now }
    ensures joins { OnOk result ((surroundings : List Surrounding) → switch_of (nodes_of unit.now) surroundings handle ≡ switch → (read : List SwitchLabel) → StandsForLabels labels.old read → StandsForLabels labels.new (switch_labels_if (nodes_of unit.now) surroundings (nodes_seen types.old facts.now) handle kind switch ++ read)) }
    ensures keeps { OnOk result (TypesJoin types.old types.new) }
{
    match switch {
        Some(switch) => {
            keep_in_switch(unit, types, facts, labels, handle, kind, switch)?;
            Ok(())
        }
        None => Ok(()),
    }
}

// In this function.
fn keep_in_function(
    unit: &Unit,
    labels: &mut FunctionLabels,
    handle: Handle,
    kind: NodeKind,
    owner: Handle,
    inside: Option<Handle>,
) -> Result<(), AllocError>
    requires whole { unit.now.first ≡ 0 }
    ensures { OnOk result ((surroundings : List Surrounding) → innermost (expressions_around (nodes_of unit.now) surroundings handle) ≡ inside → (read : List SeenLabel) → StandsForNamed labels.old read → StandsForNamed labels.new (labels_if (nodes_of unit.now) surroundings handle kind (Some owner) ++ read)) }
{
    match kind {
        NodeKind::LabelStatement => {
            let token = token_at(unit, handle);
            let label = FunctionLabel {
                handle,
                token,
                inside,
            };
            labels.add(owner, name_at(unit, handle), label)?;
            Ok(())
        }
        _ => Ok(()),
    }
}

/// Keeps the node with this handle, which has this kind, among the labels of what it belongs to, if it is one; `inside` is the innermost
/// statement expression around it. It takes a few steps.
pub fn keep_label(
    unit: &Unit,
    labels: &mut FunctionLabels,
    handle: Handle,
    kind: NodeKind,
    owner: Option<Handle>,
    inside: Option<Handle>,
) -> Result<(), AllocError>
    requires whole { unit.now.first ≡ 0 }
    ensures { OnOk result ((surroundings : List Surrounding) → innermost (expressions_around (nodes_of unit.now) surroundings handle) ≡ inside → (read : List SeenLabel) → StandsForNamed labels.old read → StandsForNamed labels.new (labels_if (nodes_of unit.now) surroundings handle kind owner ++ read)) }
{
    match owner {
        Some(owner) => keep_in_function(unit, labels, handle, kind, owner, inside),
        None => Ok(()),
    }
}

// In this function.
fn keep_jump(
    unit: &Unit,
    gotos: &mut Gotos,
    handle: Handle,
    kind: NodeKind,
    owner: Handle,
) -> Result<(), AllocError>
    requires whole { unit.now.first ≡ 0 }
    ensures { OnOk result ((surroundings : List Surrounding) (read : List SeenGoto) → StandsForGotos (expressions_around (nodes_of unit.now) surroundings) gotos.old read → StandsForGotos (expressions_around (nodes_of unit.now) surroundings) gotos.new (gotos_if (nodes_of unit.now) surroundings handle kind (Some owner) ++ read)) }
{
    match kind {
        NodeKind::GotoStatement => {
            gotos.add(owner, handle, token_at(unit, handle), name_at(unit, handle))?;
            Ok(())
        }
        _ => Ok(()),
    }
}

/// The same among the `goto`s.
pub fn keep_goto(
    unit: &Unit,
    gotos: &mut Gotos,
    handle: Handle,
    kind: NodeKind,
    owner: Option<Handle>,
) -> Result<(), AllocError>
    requires whole { unit.now.first ≡ 0 }
    ensures { OnOk result ((surroundings : List Surrounding) (read : List SeenGoto) → StandsForGotos (expressions_around (nodes_of unit.now) surroundings) gotos.old read → StandsForGotos (expressions_around (nodes_of unit.now) surroundings) gotos.new (gotos_if (nodes_of unit.now) surroundings handle kind owner ++ read)) }
{
    match owner {
        Some(owner) => keep_jump(unit, gotos, handle, kind, owner),
        None => Ok(()),
    }
}
