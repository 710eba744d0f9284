// An object or a function that is declared otherwise than before (C11 6.2.7; that contexts count is our choice): the declarations of
// its name in, the failure out.
ghost use Rattle.std.specs.Prelude.{◌≡◌, IfOk, IfSome, length, option_map};
ghost use Rattle.std.specs.Option.{option_and_then};
ghost use Rattle.meaning_typing.specs.ContextSums as meaning;
ghost use Rattle.meaning_typing.specs.Names as names;
ghost use Rattle.c_types.specs.Table.{IsTypeId, TypeTable, type_at};
ghost use Rattle.decl_judge.specs.Units.{nodes_of};
ghost use Rattle.expression_rows.specs.Rows.{IsKnownFailure, failure_listed};
ghost use Rattle.linked_names.specs.Contexts.{declaration_of, declarations_of, nodes_declaring};
ghost use Rattle.node_facts.specs.Facts.{declared_seen};
ghost use Rattle.node_surroundings.specs.Seen.{surrounding_seen, surroundings_seen};
ghost use Rattle.declaration_judge.specs.Kept.{IsKeptOf, facts_seen};

use crate::declarations::Declarations;
use c_tree::{Handle, Unit};
use decl_judge::token_at;
use declaration_rows::declared_behind;
use declared_contexts::contexts_of;
use expr_judge::declaration_of;
use linked_names::ContextSums;
use node_facts::DeclaredFact;
use node_surroundings::{Surrounding, Surroundings};
use sparse_model::{Failure, NameId, RuleCode, TypeId};
use std::alloc::AllocError;

// The failure at a token, where an earlier declaration of this type differs.
fn redeclared(token: u32, declaration: DeclaredFact, earlier: Option<TypeId>) -> Option<Failure>
    ensures listed { (table : TypeTable) → failure_listed table result ≡ names.redeclared token (declared_seen table declaration) (option_map (type_at table) earlier) }
    ensures known { (table : TypeTable) → IsTypeId table declaration.of → IfSome earlier (IsTypeId table) → IfSome result (IsKnownFailure table) }
{
    match earlier {
        Some(earlier) => Some(Failure {
            token,
            rule: RuleCode::A7,
            part: 0,
            first: Some(earlier),
            second: Some(declaration.of),
            name: declaration.name,
            number: 0,
            wanted: 0,
        }),
        None => None,
    }
}

// The type with which the node is told that declares something: an array has the length that its initializer says, once that is known.
fn told_type(
    unit: &Unit,
    surroundings: &Surroundings,
    kept: &Declarations,
    node: Handle,
) -> Option<TypeId>
    requires whole { unit.now.first ≡ 0 }
    requires surroundings { length surroundings.now ≡ length unit.now.nodes }
    requires kept { IsKeptOf (nodes_of unit.now) (surroundings_seen surroundings.now) kept.now }
    ensures told { option_map (type_at kept.now.types) result ≡ meaning.told_type (nodes_of unit.now) (surroundings_seen surroundings.now) (facts_seen kept.now) node }
    ensures known { IfSome result (IsTypeId kept.now.types) }
{
    let types = &kept.types;
    let facts = &kept.facts;
    match declaration_of(facts.at(node)) {
        Some(declaration) => {
            let told = declared_behind(unit, surroundings, types, facts, node, declaration);
            Some(told.of)
        }
        None => None,
    }
}

// The type of the first declaration of a name that differs from one of this type with these contexts.
fn differing_type(
    unit: &Unit,
    surroundings: &Surroundings,
    kept: &Declarations,
    name: NameId,
    of: TypeId,
    contexts: Option<ContextSums>,
) -> Option<TypeId>
    requires whole { unit.now.first ≡ 0 }
    requires surroundings { length surroundings.now ≡ length unit.now.nodes }
    requires kept { IsKeptOf (nodes_of unit.now) (surroundings_seen surroundings.now) kept.now }
    requires of { IsTypeId kept.now.types of }
    ensures told { option_map (type_at kept.now.types) result ≡ option_and_then (meaning.told_type (nodes_of unit.now) (surroundings_seen surroundings.now) (facts_seen kept.now)) (meaning.first_differing (declaration_of kept.now.types of contexts) (nodes_declaring name kept.now.contexts.declarations) (declarations_of kept.now.types name kept.now.contexts.declarations)) }
    ensures known { IfSome result (IsTypeId kept.now.types) }
{
    match kept
        .contexts
        .first_differing(&kept.types, name, of, contexts)
    {
        Some(node) => told_type(unit, surroundings, kept, node),
        None => None,
    }
}

/// The failure of a declaration with linkage at the node with this handle, which stands so, if an earlier one of its name differs: in
/// its type, where a length may be missing, or in its contexts, where both carry some. It takes a step for each attribute.
pub fn redeclared_otherwise(
    unit: &Unit,
    surroundings: &Surroundings,
    kept: &Declarations,
    handle: Handle,
    surrounding: Surrounding,
    declaration: DeclaredFact,
) -> Result<Option<Failure>, AllocError>
    requires whole { unit.now.first ≡ 0 }
    requires surroundings { length surroundings.now ≡ length unit.now.nodes }
    requires kept { IsKeptOf (nodes_of unit.now) (surroundings_seen surroundings.now) kept.now }
    requires of { IsTypeId kept.now.types declaration.of }
    ensures listed { IfOk result (λ failure. failure_listed kept.now.types failure ≡ meaning.redeclared_otherwise (nodes_of unit.now) (surroundings_seen surroundings.now) (facts_seen kept.now) handle (surrounding_seen surrounding) (declared_seen kept.now.types declaration)) }
    ensures known { IfOk result (λ failure. IfSome failure (IsKnownFailure kept.now.types)) }
{
    if !declaration.has_linkage {
        return Ok(None);
    }
    let DeclaredFact { name, of, .. } = declaration;
    let contexts = contexts_of(unit, handle, surrounding.parent, surrounding.place)?;
    let earlier = differing_type(unit, surroundings, kept, name, of, contexts);
    Ok(redeclared(token_at(unit, handle), declaration, earlier))
}
