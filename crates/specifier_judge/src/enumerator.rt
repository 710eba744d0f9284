// Enumerators by their nodes (C11 6.7.2.2 p2, p3): the expression of one and the enumerator before it are looked up.
ghost use Rattle.std.specs.Prelude.{◌≡◌, All, IfOk, IfSome, option_map};
ghost use Rattle.meaning_typing.specs.DeclarationRows.{hiding_enumerator_failures};
ghost use Rattle.meaning_typing.specs.EnumRows as meaning;
ghost use Rattle.c_types.specs.Table.{TypeTable};
ghost use Rattle.decl_judge.specs.Units.{nodes_of};
ghost use Rattle.expr_judge.specs.Rows.{Tells};
ghost use Rattle.node_facts.specs.Facts.{IsKnownNodeFact, node_seen, nodes_seen};
ghost use Rattle.node_surroundings.specs.Seen.{surrounding_seen};
ghost use Rattle.specifier_judge.specs.Parts as parts;

use crate::enumerators::{expression_of, is_enumerator};
use crate::taken::take_enumeration;
use c_tree::{Handle, Unit};
use c_types::Types;
use decl_judge::{child_at, kind_at, token_at};
use declaration_rows::hiding_enumerator_failure;
use enum_rows::judge_enumerator;
use expr_judge::{NodeRow, append};
use node_facts::{NodeFact, NodeFacts};
use node_surroundings::Surrounding;
use sparse_model::FailureList;
use std::alloc::AllocError;

// What is known of its expression, if it has one.
fn expression_fact(unit: &Unit, facts: &NodeFacts, enumerator: Handle) -> Option<NodeFact>
    requires { unit.now.first ≡ 0 }
    ensures seen { (table : TypeTable) → option_map (node_seen table) result ≡ meaning.expression_of (nodes_of unit.now) (nodes_seen table facts.now) enumerator }
    ensures known { (table : TypeTable) → All (IsKnownNodeFact table) facts.now → IfSome result (IsKnownNodeFact table) }
{
    match expression_of(unit, enumerator) {
        Some(expression) => Some(facts.at(expression)),
        None => None,
    }
}

// What is known of a node, if it is an enumerator.
fn enumerator_fact(unit: &Unit, facts: &NodeFacts, handle: Handle) -> Option<NodeFact>
    requires { unit.now.first ≡ 0 }
    ensures seen { (table : TypeTable) → option_map (node_seen table) result ≡ parts.enumerator_at (nodes_of unit.now) (nodes_seen table facts.now) handle }
    ensures known { (table : TypeTable) → All (IsKnownNodeFact table) facts.now → IfSome result (IsKnownNodeFact table) }
{
    if is_enumerator(kind_at(unit, handle)) {
        Some(facts.at(handle))
    } else {
        None
    }
}

// What is known of the enumerator in front of this place, if one stands there.
fn fact_before(unit: &Unit, facts: &NodeFacts, parent: Handle, place: u32) -> Option<NodeFact>
    requires { unit.now.first ≡ 0 }
    ensures seen { (table : TypeTable) → option_map (node_seen table) result ≡ meaning.enumerator_before (nodes_of unit.now) (nodes_seen table facts.now) parent place }
    ensures known { (table : TypeTable) → All (IsKnownNodeFact table) facts.now → IfSome result (IsKnownNodeFact table) }
{
    if place == 0 {
        return None;
    }
    enumerator_fact(unit, facts, child_at(unit, parent, place - 1))
}

/// The row of the enumerator with this handle, which stands so: by its expression, if it has one, or else by the enumerator in front
/// of it; where it hides another name, that is appended. It takes a few steps, and one for each list of attributes before the
/// expression.
pub fn enumerator(
    unit: &Unit,
    types: &mut Types,
    facts: &NodeFacts,
    found: &mut FailureList,
    handle: Handle,
    surrounding: Surrounding,
) -> Result<NodeRow, AllocError>
    requires whole { unit.now.first ≡ 0 }
    requires facts { All (IsKnownNodeFact types.old) facts.now }
    ensures { IfOk result (λ row. Tells types.old types.new found.old found.new row (record (meaning.enumerator_row (nodes_of unit.now) (nodes_seen types.old facts.now) handle (surrounding_seen surrounding)) { failures = hiding_enumerator_failures (nodes_of unit.now) handle (surrounding_seen surrounding) })) }
{
    let expression = expression_fact(unit, facts, handle);
    let before = fact_before(unit, facts, surrounding.parent, surrounding.place);
    let row = judge_enumerator(types, token_at(unit, handle), expression, before)?;
    let hiding = hiding_enumerator_failure(unit, handle, surrounding);
    append(found, hiding)?;
    Ok(take_enumeration(row))
}
