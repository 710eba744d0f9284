// The row of a node that initializes something.
ghost use Rattle.std.specs.Prelude.{◌≡◌, [], IfOk, OnOk, length};
ghost use Rattle.meaning_initialized.specs.Rows as meaning;
ghost use Rattle.meaning_initializers.specs.Reading.{aggregates_behind};
ghost use Rattle.meaning_rules.specs.Rules.{least_token};
ghost use Rattle.meaning_tree.specs.Laid.{IsLaid};
ghost use Rattle.meaning_typing.specs.Facts.{fact_at};
ghost use Rattle.meaning_typing.specs.Rows.{breaks, breaks_at};
ghost use Rattle.meaning_typing.specs.Surroundings.{surrounding_at};
ghost use Rattle.meaning_typing.specs.Units as units;
ghost use Rattle.c_types.specs.Layouts.{told_in};
ghost use Rattle.c_types.specs.Table.{IsTypeId, TypeTable, type_at};
ghost use Rattle.decl_judge.specs.Units.{nodes_of};
ghost use Rattle.declaration_judge.specs.Kept.{IsKeptOf, OnlyTypesJoin, facts_seen};
ghost use Rattle.expr_judge.specs.Rows.{SaysOnly};
ghost use Rattle.expression_rows.specs.Arguments.{Appends};
ghost use Rattle.init_judge.specs.Steps.{AreKnownIn};
ghost use Rattle.node_facts.specs.Facts.{IsKnownNodeFact, node_seen};
ghost use Rattle.node_surroundings.specs.Seen.{surrounding_seen, surroundings_seen};
ghost use Rattle.initialized_judge.specs.Judging.{TellsInitialized, TellsObject};

use crate::completing::{completed_otherwise, is_large, literal, with_type};
use crate::declarators::declarator_before;
use crate::making::{Made, make};
use crate::objects::{Initialized, initialized_at, initializing_part};
use c_tree::{Handle, Unit};
use c_types::Types;
use decl_judge::{kind_at, token_at};
use declaration_judge::{Declarations, standing_at};
use expr_judge::{NodeRow, append, declaration_of};
use expression_rows::broken_at;
use node_facts::NodeFact;
use node_surroundings::{Surrounding, Surroundings};
use sparse_model::{ErrorKind, FailureList, NodeKind, TypeId};
use std::alloc::{AllocError, Global};

// The token of an initializer, if the completed object is larger than one may be.
fn passed(unit: &Unit, types: &Types, init: Handle, complete: TypeId) -> Option<u32>
    requires whole { unit.now.first ≡ 0 }
    requires complete { IsTypeId types.now complete }
    ensures { result ≡ least_token (meaning.passed_unless (told_in types.now) (units.node_at (nodes_of unit.now) init).token (type_at types.now complete) []) }
{
    if is_large(types, complete) {
        Some(token_at(unit, init))
    } else {
        None
    }
}

// What is known of the initializer of this declarator. The failure of the completed object is appended, if there is one.
fn declared(
    unit: &Unit,
    surroundings: &Surroundings,
    kept: &Declarations,
    found: &mut FailureList,
    declarator: Handle,
    complete: TypeId,
) -> Result<NodeFact, AllocError>
    requires whole { unit.now.first ≡ 0 }
    requires all { length surroundings.now ≡ length unit.now.nodes }
    requires kept { IsKeptOf (nodes_of unit.now) (surroundings_seen surroundings.now) kept.now }
    requires complete { IsTypeId kept.now.types complete }
    ensures fact { IfOk result (λ fact. node_seen kept.now.types fact ≡ meaning.declared_complete (type_at kept.now.types complete) (fact_at (facts_seen kept.now) declarator)) }
    ensures known { IfOk result (IsKnownNodeFact kept.now.types) }
    ensures failures { OnOk result (Appends kept.now.types found.old found.new (meaning.completed_otherwise (nodes_of unit.now) (surroundings_seen surroundings.now) (facts_seen kept.now) declarator (type_at kept.now.types complete) (fact_at (facts_seen kept.now) declarator))) }
{
    match declaration_of(kept.facts.at(declarator)) {
        Some(declaration) => {
            let otherwise = completed_otherwise(
                unit,
                surroundings,
                kept,
                declarator,
                declaration,
                complete,
            )?;
            append(found, otherwise)?;
            Ok(NodeFact::Declared(with_type(declaration, complete)))
        }
        None => Ok(NodeFact::Unknown),
    }
}

// What is known of the node with this handle, which stands so, where its object gets this type.
fn completed(
    unit: &Unit,
    surroundings: &Surroundings,
    kept: &Declarations,
    found: &mut FailureList,
    handle: Handle,
    surrounding: Surrounding,
    is_static: bool,
    complete: TypeId,
) -> Result<NodeFact, AllocError>
    requires whole { unit.now.first ≡ 0 }
    requires all { length surroundings.now ≡ length unit.now.nodes }
    requires stands { surrounding_seen surrounding ≡ surrounding_at (surroundings_seen surroundings.now) handle }
    requires kept { IsKeptOf (nodes_of unit.now) (surroundings_seen surroundings.now) kept.now }
    requires complete { IsTypeId kept.now.types complete }
    ensures fact { IfOk result (λ fact. node_seen kept.now.types fact ≡ meaning.fact_by (nodes_of unit.now) (surroundings_seen surroundings.now) (facts_seen kept.now) handle is_static (type_at kept.now.types complete) (units.kind_at (nodes_of unit.now) handle)) }
    ensures known { IfOk result (IsKnownNodeFact kept.now.types) }
    ensures failures { OnOk result (Appends kept.now.types found.old found.new (meaning.failures_by (nodes_of unit.now) (surroundings_seen surroundings.now) (facts_seen kept.now) handle (type_at kept.now.types complete) (units.kind_at (nodes_of unit.now) handle))) }
{
    match kind_at(unit, handle) {
        NodeKind::CompoundLiteral => Ok(NodeFact::Expression(literal(complete, is_static))),
        _ => {
            let declarator = declarator_before(unit, surrounding);
            declared(unit, surroundings, kept, found, declarator, complete)
        }
    }
}

// The row of a node that initializes an object of this type.
fn row_of_object(
    alloc: Global,
    unit: &Unit,
    surroundings: &Surroundings,
    kept: &mut Declarations,
    found: &mut FailureList,
    handle: Handle,
    surrounding: Surrounding,
    object: TypeId,
    is_static: bool,
) -> Result<NodeRow, AllocError>
    requires whole { unit.now.first ≡ 0 }
    requires laid { IsLaid unit.now }
    requires all { length surroundings.now ≡ length unit.now.nodes }
    requires stands { surrounding_seen surrounding ≡ surrounding_at (surroundings_seen surroundings.now) handle }
    requires kept { IsKeptOf (nodes_of unit.now) (surroundings_seen surroundings.now) kept.old }
    requires aggregates { AreKnownIn kept.old.types (aggregates_behind (nodes_of unit.now) (surroundings_seen surroundings.now) (facts_seen kept.old)) }
    requires object { IsTypeId kept.old.types object }
    ensures says { IfOk result (TellsObject (nodes_of unit.now) (surroundings_seen surroundings.now) kept.old kept.new handle (type_at kept.old.types object) is_static found.old found.new) }
    ensures keeps { OnOk result (OnlyTypesJoin kept.old kept.new) }
{
    let init = initializing_part(unit, handle);
    match make(
        alloc,
        unit,
        surroundings,
        kept,
        found,
        object,
        is_static,
        init,
    )? {
        Made::Complete(complete) => {
            let fact = completed(
                unit,
                surroundings,
                kept,
                found,
                handle,
                surrounding,
                is_static,
                complete,
            )?;
            Ok(NodeRow {
                fact,
                broken: None,
                passed: passed(unit, &kept.types, init, complete),
            })
        }
        Made::Refused(broken) => Ok(NodeRow {
            fact: NodeFact::Unknown,
            broken: Some(broken),
            passed: None,
        }),
    }
}

// A constraint that is broken at a node.
fn breaks(unit: &Unit, constraint: ErrorKind, handle: Handle) -> NodeRow
    requires { unit.now.first ≡ 0 }
    ensures { (table : TypeTable) → SaysOnly table result (breaks (breaks_at constraint (units.node_at (nodes_of unit.now) handle).token)) }
{
    NodeRow {
        fact: NodeFact::Unknown,
        broken: broken_at(constraint, token_at(unit, handle)),
        passed: None,
    }
}

/// The row of an initializer or of a compound literal with this handle, by what is known and kept of the nodes before it: what is
/// declared or a place, with the completed type; the least constraint that is broken, and the token of the initializer where the object
/// is too large. The rules that fail at its leaves are appended, and that the completed object was declared otherwise; none of them
/// where a constraint is broken. Of any other node nothing is said. Types may join the table.
///
/// It takes a few steps for each item, for each object or part in which an item is sought, and for each attribute.
pub fn judge_initialized(
    alloc: Global,
    unit: &Unit,
    surroundings: &Surroundings,
    kept: &mut Declarations,
    found: &mut FailureList,
    handle: Handle,
) -> Result<NodeRow, AllocError>
    requires whole { unit.now.first ≡ 0 }
    requires laid { IsLaid unit.now }
    requires all { length surroundings.now ≡ length unit.now.nodes }
    requires kept { IsKeptOf (nodes_of unit.now) (surroundings_seen surroundings.now) kept.old }
    requires aggregates { AreKnownIn kept.old.types (aggregates_behind (nodes_of unit.now) (surroundings_seen surroundings.now) (facts_seen kept.old)) }
    ensures says { IfOk result (TellsInitialized (nodes_of unit.now) (surroundings_seen surroundings.now) kept.old kept.new handle found.old found.new) }
    ensures keeps { OnOk result (OnlyTypesJoin kept.old kept.new) }
{
    let surrounding = standing_at(unit, surroundings, handle);
    let of = initialized_at(
        unit,
        surroundings,
        &kept.types,
        &kept.facts,
        handle,
        surrounding,
    );
    match of {
        Initialized::NoObject => Ok(NodeRow::known(NodeFact::Unknown)),
        Initialized::NoPlace => {
            let init = initializing_part(unit, handle);
            Ok(breaks(unit, ErrorKind::ExtraInitializer, init))
        }
        Initialized::Incomplete => Ok(breaks(unit, ErrorKind::IncompleteType, handle)),
        Initialized::AnObject(object, is_static) => row_of_object(
            alloc,
            unit,
            surroundings,
            kept,
            found,
            handle,
            surrounding,
            object,
            is_static,
        ),
    }
}
