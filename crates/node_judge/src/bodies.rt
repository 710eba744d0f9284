// Bodies of structures and unions (C11 6.7.2.1): a specifier in; its body, if it declares one, is told to the table of types, and
// whether it has a const member is kept. What its row says isn't known here.
ghost use Rattle.std.specs.Prelude.{◌≡◌, ◌<◌, ◌++◌, ◌∷◌, [], All, IfOk, OnOk, length, nat_le, true};
ghost use Rattle.meaning_tree.specs.Nodes.{end_of};
ghost use Rattle.meaning_typing.specs.MemberDeclarations.{bodies_before, is_member_list};
ghost use Rattle.meaning_typing.specs.MemberRows.{aggregates_before};
ghost use Rattle.meaning_typing.specs.Units.{kind_at as kind_of};
ghost use Rattle.specifier_judge.specs.Bodies.{is_aggregate};
ghost use Rattle.specifier_judge.specs.Seen.{body_seen};
ghost use Rattle.c_types.specs.Table.{IsBodyOver, types_in};
ghost use Rattle.decl_judge.specs.Units.{handles_of, nodes_of};
ghost use Rattle.member_rows.specs.Aggregates.{aggregates_in, bodies_in};
ghost use Rattle.node_facts.specs.Facts.{IsKnownNodeFact, nodes_seen};
ghost use Rattle.node_surroundings.specs.Seen.{surroundings_seen};
ghost use Rattle.whole_judge.specs.Known.{AreKnownBodies};
ghost use Rattle.whole_rows.specs.ConstAggregates.{AreConst};
ghost use Rattle.node_judge.specs.Bodies.{AreOneFirst, BodiesJoin, aggregates_behind, aggregates_with, bodies_behind, lists_among};

use c_tree::{Handle, Unit};
use c_types::{AggregateBody, Types};
use decl_judge::kind_at;
use node_facts::NodeFacts;
use node_surroundings::Surroundings;
use sparse_model::NodeKind;
use specifier_judge::specifier_body;
use std::alloc::{AllocError, Global};
use tag_list::TagList;
use whole_rows::ConstAggregates;

fn is_aggregate(kind: NodeKind) -> bool
    ensures { result ≡ is_aggregate kind }
{
    match kind {
        NodeKind::StructSpecifier => true,
        NodeKind::UnionSpecifier => true,
        _ => false,
    }
}

fn is_member_list(kind: NodeKind) -> bool
    ensures { result ≡ is_member_list kind }
{
    match kind {
        NodeKind::MemberList => true,
        _ => false,
    }
}

// Whether no more than one list of members is among children.
fn is_one_list(unit: &Unit, children: &TagList) -> bool
    requires { unit.now.first ≡ 0 }
    ensures { result ≡ nat_le (length (lists_among (nodes_of unit.now) (handles_of children.now))) 1 }
{
    let mut has_list = false;
    for (child, _) in children.iter() {
        if !is_member_list(kind_at(unit, child)) {
            continue;
        }
        if has_list {
            return false;
        }
        has_list = true;
    }
    true
}

// Tells a body to the table, unless one of its aggregate was told before: what was told first stays.
fn tell(
    types: &mut Types,
    consts: &mut ConstAggregates,
    aggregate: u32,
    body: AggregateBody,
) -> Result<(), AllocError>
    requires bodies { AreKnownBodies types.old }
    requires consts { AreConst types.old consts.old }
    requires body { IsBodyOver (types_in types.old) body }
    ensures told { OnOk result (aggregates_in types.new ≡ aggregates_with (aggregates_in types.old) (aggregate, body_seen types.old body)) }
    ensures first { OnOk result (AreOneFirst (bodies_in types.new) (bodies_in types.old ++ (aggregate, body_seen types.old body) ∷ [])) }
    ensures consts { OnOk result (AreConst types.new consts.new) }
    ensures joins { OnOk result (BodiesJoin types.old types.new) }
{
    if types.body(aggregate).is_some() {
        return Ok(());
    }
    consts.tell(types, aggregate, &body)?;
    types.complete(aggregate, body)
}

/// The number of an aggregate as the table has it. No specifier that was read has one of more than 32 bits, so one that has is want of
/// memory.
pub fn aggregate_number(number: u64) -> Result<u32, AllocError>
    ensures { IfOk result (λ aggregate. aggregate ≡ number) }
{
    match u32::try_from(number) {
        Ok(aggregate) => Ok(aggregate),
        Err(_) => Err(AllocError),
    }
}

// The same of one with this number.
fn tell_numbered(
    types: &mut Types,
    consts: &mut ConstAggregates,
    number: u64,
    body: AggregateBody,
) -> Result<(), AllocError>
    requires bodies { AreKnownBodies types.old }
    requires consts { AreConst types.old consts.old }
    requires body { IsBodyOver (types_in types.old) body }
    ensures told { OnOk result (aggregates_in types.new ≡ aggregates_with (aggregates_in types.old) (number, body_seen types.old body)) }
    ensures first { OnOk result (AreOneFirst (bodies_in types.new) (bodies_in types.old ++ (number, body_seen types.old body) ∷ [])) }
    ensures consts { OnOk result (AreConst types.new consts.new) }
    ensures joins { OnOk result (BodiesJoin types.old types.new) }
{
    let aggregate = aggregate_number(number)?;
    tell(types, consts, aggregate, body)
}

// Tells the body that a specifier of a structure or a union declares.
fn tell_specifier(
    alloc: Global,
    unit: &Unit,
    surroundings: &Surroundings,
    types: &mut Types,
    facts: &NodeFacts,
    consts: &mut ConstAggregates,
    handle: Handle,
) -> Result<(), AllocError>
    requires whole { unit.now.first ≡ 0 }
    requires node { handle < end_of unit.now }
    requires surroundings { length surroundings.now ≡ length unit.now.nodes }
    requires next { length facts.now ≡ handle }
    requires kind { is_aggregate (kind_of (nodes_of unit.now) handle) ≡ true }
    requires ids { All (IsKnownNodeFact types.old) facts.now }
    requires bodies { AreKnownBodies types.old }
    requires consts { AreConst types.old consts.old }
    requires told { aggregates_in types.old ≡ aggregates_before (nodes_of unit.now) (surroundings_seen surroundings.now) (nodes_seen types.old facts.now) }
    requires first { AreOneFirst (bodies_in types.old) (bodies_before (nodes_of unit.now) (surroundings_seen surroundings.now) (nodes_seen types.old facts.now) (length (nodes_seen types.old facts.now))) }
    ensures told { OnOk result (aggregates_in types.new ≡ aggregates_behind (nodes_of unit.now) (surroundings_seen surroundings.now) (nodes_seen types.old facts.now)) }
    ensures first { OnOk result (AreOneFirst (bodies_in types.new) (bodies_behind (nodes_of unit.now) (surroundings_seen surroundings.now) (nodes_seen types.old facts.now))) }
    ensures consts { OnOk result (AreConst types.new consts.new) }
    ensures joins { OnOk result (BodiesJoin types.old types.new) }
{
    let node = unit.node(handle);
    if !is_one_list(unit, &node.children) {
        return Err(AllocError);
    }
    let surrounding = surroundings.get(handle);
    match specifier_body(alloc, unit, types, facts, surrounding, handle)? {
        Some(body) => tell_numbered(types, consts, node.number, body),
        None => Ok(()),
    }
}

/// Tells the table the body that a node declares, if it declares one. It takes a step for each member and for each of its parts. A
/// number of more than 32 bits, or a second list of members, which no specifier has that was read, is want of memory.
pub fn tell_body(
    alloc: Global,
    unit: &Unit,
    surroundings: &Surroundings,
    types: &mut Types,
    facts: &NodeFacts,
    consts: &mut ConstAggregates,
    handle: Handle,
) -> Result<(), AllocError>
    requires whole { unit.now.first ≡ 0 }
    requires node { handle < end_of unit.now }
    requires surroundings { length surroundings.now ≡ length unit.now.nodes }
    requires next { length facts.now ≡ handle }
    requires ids { All (IsKnownNodeFact types.old) facts.now }
    requires bodies { AreKnownBodies types.old }
    requires consts { AreConst types.old consts.old }
    requires told { aggregates_in types.old ≡ aggregates_before (nodes_of unit.now) (surroundings_seen surroundings.now) (nodes_seen types.old facts.now) }
    requires first { AreOneFirst (bodies_in types.old) (bodies_before (nodes_of unit.now) (surroundings_seen surroundings.now) (nodes_seen types.old facts.now) (length (nodes_seen types.old facts.now))) }
    ensures told { OnOk result (aggregates_in types.new ≡ aggregates_behind (nodes_of unit.now) (surroundings_seen surroundings.now) (nodes_seen types.old facts.now)) }
    ensures first { OnOk result (AreOneFirst (bodies_in types.new) (bodies_behind (nodes_of unit.now) (surroundings_seen surroundings.now) (nodes_seen types.old facts.now))) }
    ensures consts { OnOk result (AreConst types.new consts.new) }
    ensures joins { OnOk result (BodiesJoin types.old types.new) }
{
    if is_aggregate(kind_at(unit, handle)) {
        tell_specifier(alloc, unit, surroundings, types, facts, consts, handle)
    } else {
        Ok(())
    }
}
