// The rows of labels of a switch (C11 6.8.1 p2, 6.8.4.2 p3), by what stands above them and what was read before them.
ghost use Rattle.std.specs.Prelude.{◌≡◌, All, IfOk, List, None, Some};
ghost use Rattle.meaning_statements.specs.Jumps.{switch_of};
ghost use Rattle.meaning_statements.specs.StatementRows as meaning;
ghost use Rattle.meaning_tree.specs.Laid.{IsLaid};
ghost use Rattle.meaning_typing.specs.Facts.{Fact};
ghost use Rattle.decl_judge.specs.Units.{nodes_of};
ghost use Rattle.node_facts.specs.Facts.{IsKnownNodeFact, nodes_seen};
ghost use Rattle.node_surroundings.specs.Seen.{AreSurroundingsOf, surroundings_seen};
ghost use Rattle.statement_judge.specs.Nesting.{IsNestingOf};
ghost use Rattle.statement_judge.specs.Rows.{Says};
ghost use Rattle.statement_rows.specs.Labels.{StandsForLabels};

use crate::nesting::Nesting;
use crate::parts::{case_parts, part_token};
use c_tree::{Handle, Unit};
use c_types::Types;
use decl_judge::token_at;
use expression_rows::Row;
use node_facts::NodeFacts;
use node_surroundings::Surroundings;
use statement_rows::{CasePlace, SwitchLabels, judge_case, judge_default, number_of_label};
use std::alloc::AllocError;

// Whether a label stands in a statement expression that isn't around its switch.
fn enters_label(
    unit: &Unit,
    surroundings: &Surroundings,
    nesting: &Nesting,
    switch: Option<Handle>,
    label: Handle,
) -> bool
    requires whole { unit.now.first ≡ 0 }
    requires laid { IsLaid unit.now }
    requires surroundings { AreSurroundingsOf unit.now surroundings.now }
    requires nesting { IsNestingOf (nodes_of unit.now) (surroundings_seen surroundings.now) nesting.now }
    ensures { result ≡ meaning.enters_label (nodes_of unit.now) (surroundings_seen surroundings.now) switch label }
{
    match switch {
        Some(switch) => nesting.leads_into(unit, switch, nesting.above(label).innermost),
        None => false,
    }
}

fn earliest_number(labels: &SwitchLabels, switch: Option<Handle>, number: i128) -> Option<u32>
    ensures { (read : List meaning.SwitchLabel) → StandsForLabels labels.now read → result ≡ meaning.earliest_in switch (Some number) read }
{
    match switch {
        Some(switch) => labels.earliest_case(switch, number),
        None => None,
    }
}

fn earliest_case(labels: &SwitchLabels, switch: Option<Handle>, number: Option<i128>) -> Option<u32>
    ensures { (read : List meaning.SwitchLabel) → StandsForLabels labels.now read → result ≡ meaning.earliest_case switch number read }
{
    match number {
        Some(number) => earliest_number(labels, switch, number),
        None => None,
    }
}

fn earliest_default(labels: &SwitchLabels, switch: Option<Handle>) -> Option<u32>
    ensures { (read : List meaning.SwitchLabel) → StandsForLabels labels.now read → result ≡ meaning.earliest_in switch None read }
{
    match switch {
        Some(switch) => labels.earliest_default(switch),
        None => None,
    }
}

/// The row of `case`.
pub fn case_label(
    unit: &Unit,
    surroundings: &Surroundings,
    types: &mut Types,
    facts: &NodeFacts,
    nesting: &Nesting,
    labels: &SwitchLabels,
    handle: Handle,
) -> Result<Row, AllocError>
    requires whole { unit.now.first ≡ 0 }
    requires laid { IsLaid unit.now }
    requires surroundings { AreSurroundingsOf unit.now surroundings.now }
    requires ids { All (IsKnownNodeFact types.old) facts.now }
    requires nesting { IsNestingOf (nodes_of unit.now) (surroundings_seen surroundings.now) nesting.now }
    requires labels { StandsForLabels labels.now (meaning.switch_labels_before (nodes_of unit.now) (surroundings_seen surroundings.now) (nodes_seen types.old facts.now) handle) }
    ensures { IfOk result (λ row. Says types.old types.new row (meaning.case_at (nodes_of unit.now) (surroundings_seen surroundings.now) (nodes_seen types.old facts.now) handle (switch_of (nodes_of unit.now) (surroundings_seen surroundings.now) handle))) }
{
    let switch = nesting.above(handle).switch;
    let parts = case_parts(unit, types, facts, handle, switch)?;
    let at = CasePlace {
        token: token_at(unit, handle),
        value: part_token(unit, handle, 0),
        switch,
        enters: enters_label(unit, surroundings, nesting, switch, handle),
    };
    let number = number_of_label(types, parts.switched, parts.label);
    let earliest = earliest_case(labels, switch, number);
    Ok(judge_case(types, at, parts.label, parts.switched, earliest))
}

/// The row of `default`.
pub fn default_label(
    unit: &Unit,
    surroundings: &Surroundings,
    types: &Types,
    nesting: &Nesting,
    labels: &SwitchLabels,
    handle: Handle,
) -> Row
    requires whole { unit.now.first ≡ 0 }
    requires laid { IsLaid unit.now }
    requires surroundings { AreSurroundingsOf unit.now surroundings.now }
    requires nesting { IsNestingOf (nodes_of unit.now) (surroundings_seen surroundings.now) nesting.now }
    ensures { (facts : List Fact) → StandsForLabels labels.now (meaning.switch_labels_before (nodes_of unit.now) (surroundings_seen surroundings.now) facts handle) → Says types.now types.now result (meaning.default_at (nodes_of unit.now) (surroundings_seen surroundings.now) facts handle (switch_of (nodes_of unit.now) (surroundings_seen surroundings.now) handle)) }
{
    let switch = nesting.above(handle).switch;
    let enters = enters_label(unit, surroundings, nesting, switch, handle);
    let earliest = earliest_default(labels, switch);
    judge_default(token_at(unit, handle), switch, enters, earliest)
}
