// The row of each expression by its kind.
ghost use Rattle.std.specs.Prelude.{◌≡◌, ◌≢◌, ◌<◌, All, IfOk, List, false};
ghost use Rattle.vocabulary.specs.declared.node_kind.NodeKind.TheVariants as kinds;
ghost use Rattle.meaning_tree.specs.Nodes.{end_of};
ghost use Rattle.meaning_typing.specs.Surroundings.{Surrounding, surrounding_at};
ghost use Rattle.meaning_typing.specs.Units.{kind_at as kind_of};
ghost use Rattle.meaning_typing.specs.WholeTyping.{whole_row_by, whole_row_of};
ghost use Rattle.decl_judge.specs.Units.{nodes_of};
ghost use Rattle.expr_judge.specs.Rows.{Tells};
ghost use Rattle.member_rows.specs.Aggregates.{aggregates_in};
ghost use Rattle.node_facts.specs.Facts.{IsKnownNodeFact, nodes_seen};
ghost use Rattle.whole_judge.specs.Kinds.{is_of_unit, is_plain};
ghost use Rattle.whole_judge.specs.Known.{AreKnownBodies};
ghost use Rattle.whole_rows.specs.ConstAggregates.{AreConst};
ghost use Rattle.whole_rows.specs.Rows.{is_for_value};

use crate::calls::call;
use crate::constants::constant_bits;
use crate::loaded::as_loaded;
use crate::members::{member, pointer_member};
use crate::offsets::offset;
use crate::operation::row_of_operator;
use crate::places::{assignment, subscript};
use crate::primary::{literal, parenthesized};
use c_tree::{Handle, Unit};
use c_types::Types;
use decl_judge::{kind_at, token_at};
use expr_judge::{NodeRow, address, indirection, string, with_bits};
use node_facts::NodeFacts;
use node_surroundings::operation_of;
use sparse_model::{FailureList, NodeKind};
use std::alloc::{AllocError, Global};
use whole_rows::ConstAggregates;

// Where members, elements, calls and assignments are asked of aggregates; all other nodes are operators or say nothing.
fn row_with_aggregates(
    alloc: Global,
    unit: &Unit,
    types: &mut Types,
    consts: &ConstAggregates,
    facts: &NodeFacts,
    handle: Handle,
    kind: NodeKind,
    found: &mut FailureList,
) -> Result<NodeRow, AllocError>
    requires whole { unit.now.first ≡ 0 }
    requires node { handle < end_of unit.now }
    requires unit { is_of_unit kind ≡ false }
    requires names { kind ≢ kinds.Name }
    requires plain { is_plain kind ≡ false }
    requires ids { All (IsKnownNodeFact types.old) facts.now }
    requires bodies { AreKnownBodies types.old }
    requires consts { AreConst types.old consts.now }
    ensures { (surroundings : List Surrounding) → IfOk result (λ row. Tells types.old types.new found.old found.new row (whole_row_of (aggregates_in types.old) (nodes_of unit.now) surroundings (nodes_seen types.old facts.now) handle kind)) }
{
    match kind {
        NodeKind::Member => member(unit, types, facts, found, handle),
        NodeKind::PointerMember => pointer_member(unit, types, facts, found, handle),
        NodeKind::BuiltinOffsetof => offset(unit, types, facts, found, handle),
        NodeKind::Subscript => subscript(unit, types, facts, found, handle),
        NodeKind::Call => call(alloc, unit, types, facts, found, handle),
        NodeKind::Assignment => assignment(unit, types, consts, facts, found, handle),
        _ => row_of_operator(
            unit,
            types,
            consts,
            facts,
            found,
            handle,
            operation_of(kind),
        ),
    }
}

// But for its constant and what is loaded.
fn row_by_parts(
    alloc: Global,
    unit: &Unit,
    types: &mut Types,
    consts: &ConstAggregates,
    facts: &NodeFacts,
    handle: Handle,
    kind: NodeKind,
    found: &mut FailureList,
) -> Result<NodeRow, AllocError>
    requires whole { unit.now.first ≡ 0 }
    requires node { handle < end_of unit.now }
    requires unit { is_of_unit kind ≡ false }
    requires names { kind ≢ kinds.Name }
    requires ids { All (IsKnownNodeFact types.old) facts.now }
    requires bodies { AreKnownBodies types.old }
    requires consts { AreConst types.old consts.now }
    ensures { (surroundings : List Surrounding) → IfOk result (λ row. Tells types.old types.new found.old found.new row (whole_row_of (aggregates_in types.old) (nodes_of unit.now) surroundings (nodes_seen types.old facts.now) handle kind)) }
{
    match kind {
        NodeKind::IntegerConstant(of) => literal(types, found, of),
        NodeKind::CharacterConstant(of) => literal(types, found, of),
        NodeKind::StringLiteral => string(unit, types, found, handle),
        NodeKind::Parenthesized => Ok(parenthesized(unit, types, facts, handle)),
        NodeKind::Address => address(unit, types, facts, found, handle),
        NodeKind::Indirection => indirection(unit, types, facts, found, handle),
        _ => row_with_aggregates(alloc, unit, types, consts, facts, handle, kind, found),
    }
}

/// The row of an expression that is no name, over what is known of the nodes before it and of aggregates: what is known of it, with
/// its constant, and the least constraint that it breaks, one of a load among them where its value is wanted. The rules that fail are
/// appended, but those of accesses. Of a node that is no expression nothing is known. It takes a few steps, and one for each part.
pub fn row_of_expression(
    alloc: Global,
    unit: &Unit,
    types: &mut Types,
    consts: &ConstAggregates,
    facts: &NodeFacts,
    handle: Handle,
    is_valued: bool,
    found: &mut FailureList,
) -> Result<NodeRow, AllocError>
    requires whole { unit.now.first ≡ 0 }
    requires node { handle < end_of unit.now }
    requires unit { is_of_unit (kind_of (nodes_of unit.now) handle) ≡ false }
    requires names { kind_of (nodes_of unit.now) handle ≢ kinds.Name }
    requires ids { All (IsKnownNodeFact types.old) facts.now }
    requires bodies { AreKnownBodies types.old }
    requires consts { AreConst types.old consts.now }
    ensures { (surroundings : List Surrounding) → is_for_value (surrounding_at surroundings handle).want ≡ is_valued → IfOk result (λ row. Tells types.old types.new found.old found.new row (whole_row_by (aggregates_in types.old) (nodes_of unit.now) surroundings (nodes_seen types.old facts.now) handle (kind_of (nodes_of unit.now) handle))) }
{
    let kind = kind_at(unit, handle);
    let bits = constant_bits(unit, types, facts, handle);
    let row = row_by_parts(alloc, unit, types, consts, facts, handle, kind, found)?;
    let judged = NodeRow {
        fact: with_bits(row.fact, bits),
        ..row
    };
    Ok(as_loaded(types, token_at(unit, handle), is_valued, judged))
}
