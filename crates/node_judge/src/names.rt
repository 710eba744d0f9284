// Names that are used (C11 6.5.1 p2, 6.7.2.2 p3): a node in, what it stands for is looked up, and its row comes out.
ghost use Rattle.std.specs.Prelude.{◌≡◌, ◌≤◌, ◌<◌, ◌^◌, false, true, All, IfNone, IfOk, IfSome, List, length, option_map};
ghost use Rattle.sparse_model.specs.declared.failure.Failure.{Failure as Found};
ghost use Rattle.vocabulary.specs.declared.node_kind.NodeKind.TheVariants as kinds;
ghost use Rattle.meaning_tree.specs.Nodes.{end_of};
ghost use Rattle.meaning_typing.specs.EnumRows.{is_enumerator};
ghost use Rattle.meaning_typing.specs.Names as meaning;
ghost use Rattle.meaning_typing.specs.Surroundings.{surrounding_at};
ghost use Rattle.meaning_typing.specs.Units.{kind_at as kind_of, node_at as node_of_unit};
ghost use Rattle.c_types.specs.Table.{Extends, IsTypeId};
ghost use Rattle.decl_judge.specs.Units.{nodes_of};
ghost use Rattle.member_declarations.specs.Kept.{AreLinked};
ghost use Rattle.expr_judge.specs.Rows.{Tells};
ghost use Rattle.expression_rows.specs.Names.{IsNamed, declared_by};
ghost use Rattle.node_facts.specs.Facts.{IsKnownNodeFact, declared_seen, nodes_seen};
ghost use Rattle.node_surroundings.specs.Seen.{surroundings_seen};
ghost use Rattle.specifier_judge.specs.Kept.{IsKeptOf};
ghost use Rattle.whole_rows.specs.Rows.{is_for_value};
ghost use Rattle.node_judge.specs.Rows.{row_over};

use crate::loaded::{as_loaded, is_for_value};
use c_tree::{Handle, Unit};
use c_types::Types;
use decl_judge::{kind_at, token_at};
use expr_judge::{NodeRow, declaration_of};
use expression_rows::DeclaredName;
use linked_names::LinkedNames;
use member_declarations::{declared_behind, type_of_name};
use node_facts::{DeclaredFact, NodeFacts};
use node_surroundings::Surroundings;
use sparse_model::{FailureList, NodeKind};
use specifier_judge::Enumerations;
use std::alloc::AllocError;
use whole_judge::{row_of_declared_name, row_of_enumerator_name};

fn handle_of(number: u64) -> Option<Handle>
    ensures none { IfNone result (2 ^ 32 ≤ number) }
    ensures one { IfSome result (λ handle. handle ≡ number) }
{
    match Handle::try_from(number) {
        Ok(handle) => Some(handle),
        Err(_) => None,
    }
}

// What the node with this handle declares behind the others, if it is a declarator.
fn declaration_behind(
    unit: &Unit,
    surroundings: &Surroundings,
    types: &Types,
    facts: &NodeFacts,
    handle: Handle,
) -> Option<DeclaredFact>
    requires whole { unit.now.first ≡ 0 }
    requires surroundings { length surroundings.now ≡ length unit.now.nodes }
    requires ids { All (IsKnownNodeFact types.now) facts.now }
    ensures found { option_map (declared_seen types.now) result ≡ declared_by (meaning.declared_behind (nodes_of unit.now) (surroundings_seen surroundings.now) (nodes_seen types.now facts.now) handle) }
    ensures known { IfSome result (λ declaration. IsTypeId types.now declaration.of) }
{
    match declaration_of(facts.at(handle)) {
        Some(declaration) => Some(declared_behind(
            unit,
            surroundings,
            types,
            facts,
            handle,
            declaration,
        )),
        None => None,
    }
}

// The same by the number of a name.
fn declaration_at(
    unit: &Unit,
    surroundings: &Surroundings,
    types: &Types,
    facts: &NodeFacts,
    number: u64,
) -> Option<DeclaredFact>
    requires whole { unit.now.first ≡ 0 }
    requires surroundings { length surroundings.now ≡ length unit.now.nodes }
    requires ids { All (IsKnownNodeFact types.now) facts.now }
    requires few { length facts.now ≤ 2 ^ 32 }
    ensures found { option_map (declared_seen types.now) result ≡ declared_by (meaning.declared_behind (nodes_of unit.now) (surroundings_seen surroundings.now) (nodes_seen types.now facts.now) number) }
    ensures known { IfSome result (λ declaration. IsTypeId types.now declaration.of) }
{
    match handle_of(number) {
        Some(handle) => declaration_behind(unit, surroundings, types, facts, handle),
        None => None,
    }
}

// What a name stands for that the declarator with this handle declares, if something is known of one. Declarations of a name with
// linkage are kept by name, so no walk goes over them.
fn declared_name(
    unit: &Unit,
    surroundings: &Surroundings,
    types: &Types,
    facts: &NodeFacts,
    linked: &LinkedNames,
    handle: u64,
) -> Option<DeclaredName>
    requires whole { unit.now.first ≡ 0 }
    requires surroundings { length surroundings.now ≡ length unit.now.nodes }
    requires ids { All (IsKnownNodeFact types.now) facts.now }
    requires few { length facts.now ≤ 2 ^ 32 }
    requires over { Extends linked.now.over types.now }
    requires linked { AreLinked types.now facts.now linked.now }
    ensures named { IsNamed types.now result (nodes_seen types.now facts.now) (meaning.declared_behind (nodes_of unit.now) (surroundings_seen surroundings.now) (nodes_seen types.now facts.now) handle) }
    ensures known { IfSome result (λ named. IsTypeId types.now named.of) }
{
    let declaration = declaration_at(unit, surroundings, types, facts, handle)?;
    Some(DeclaredName {
        of: type_of_name(types, facts, linked, declaration),
        is_typedef: declaration.is_typedef,
        is_static: declaration.is_static,
        is_register: declaration.is_register,
    })
}

fn is_enumerator(kind: NodeKind) -> bool
    ensures { result ≡ is_enumerator kind }
{
    match kind {
        NodeKind::Enumerator => true,
        _ => false,
    }
}

// The enumerator that a number names, if it names one.
fn enumerator_at(unit: &Unit, number: u64) -> Option<Handle>
    requires { unit.now.first ≡ 0 }
    ensures none { IfNone result (is_enumerator (kind_of (nodes_of unit.now) number) ≡ false) }
    ensures one { IfSome result (λ handle. handle ≡ number) }
    ensures enumerates { IfSome result (λ handle. is_enumerator (kind_of (nodes_of unit.now) handle) ≡ true) }
    ensures within { IfSome result (λ handle. handle < length unit.now.nodes) }
{
    if number >= u64::from(unit.len()) {
        return None;
    }
    let handle = number as Handle;
    if is_enumerator(kind_at(unit, handle)) {
        Some(handle)
    } else {
        None
    }
}

// The row of a name that stands for an enumerator: behind its enumeration it has the type that all share, and in it its own one.
fn enumerator_name(
    unit: &Unit,
    surroundings: &Surroundings,
    types: &mut Types,
    facts: &NodeFacts,
    enumerations: &Enumerations,
    handle: Handle,
    is_valued: bool,
    enumerator: Handle,
) -> Result<NodeRow, AllocError>
    requires whole { unit.now.first ≡ 0 }
    requires surroundings { length surroundings.now ≡ length unit.now.nodes }
    requires within { enumerator < length unit.now.nodes }
    requires names { (node_of_unit (nodes_of unit.now) handle).number ≡ enumerator }
    requires enumerates { is_enumerator (kind_of (nodes_of unit.now) enumerator) ≡ true }
    requires kind { kind_of (nodes_of unit.now) handle ≡ kinds.Name }
    requires want { is_for_value (surrounding_at (surroundings_seen surroundings.now) handle).want ≡ is_valued }
    requires ids { All (IsKnownNodeFact types.old) facts.now }
    requires kept { IsKeptOf (nodes_of unit.now) (nodes_seen types.old facts.now) (length facts.now) enumerations.now }
    ensures { (found : List Found) → IfOk result (λ row. Tells types.old types.new found found row (row_over (nodes_of unit.now) (surroundings_seen surroundings.now) types.old facts.now handle kinds.Name)) }
{
    let token = token_at(unit, handle);
    let parent = surroundings.get(enumerator).parent;
    let fact = facts.at(enumerator);
    if (parent as usize) < facts.len() {
        let sharing = enumerations.sharing(parent);
        return row_of_enumerator_name(types, token, is_valued, true, sharing, fact);
    }
    Ok(as_loaded(types, token, is_valued, NodeRow::known(fact)))
}

/// The row of a name: it stands for an enumerator, or for what a declarator declares. The rules that fail are appended. It takes a few
/// look-ups.
pub fn name(
    unit: &Unit,
    surroundings: &Surroundings,
    types: &mut Types,
    facts: &NodeFacts,
    linked: &LinkedNames,
    enumerations: &Enumerations,
    found: &mut FailureList,
    handle: Handle,
) -> Result<NodeRow, AllocError>
    requires whole { unit.now.first ≡ 0 }
    requires node { handle < end_of unit.now }
    requires surroundings { length surroundings.now ≡ length unit.now.nodes }
    requires kind { kind_of (nodes_of unit.now) handle ≡ kinds.Name }
    requires ids { All (IsKnownNodeFact types.old) facts.now }
    requires few { length facts.now ≤ 2 ^ 32 }
    requires over { Extends linked.now.over types.old }
    requires linked { AreLinked types.old facts.now linked.now }
    requires kept { IsKeptOf (nodes_of unit.now) (nodes_seen types.old facts.now) (length facts.now) enumerations.now }
    ensures { IfOk result (λ row. Tells types.old types.new found.old found.new row (row_over (nodes_of unit.now) (surroundings_seen surroundings.now) types.old facts.now handle kinds.Name)) }
{
    let number = unit.node(handle).number;
    let is_valued = is_for_value(surroundings.get(handle).want);
    match enumerator_at(unit, number) {
        Some(enumerator) => enumerator_name(
            unit,
            surroundings,
            types,
            facts,
            enumerations,
            handle,
            is_valued,
            enumerator,
        ),
        None => {
            let named = declared_name(unit, surroundings, types, facts, linked, number);
            row_of_declared_name(types, token_at(unit, handle), is_valued, named, found)
        }
    }
}
