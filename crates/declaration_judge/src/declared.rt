// What is declared where it stands (C11 6.7, 6.9): a declaration and what is kept of those before it in, what it breaks at its name and
// which rules fail there out. The parts of its declarator aren't known here.
ghost use Rattle.std.specs.Prelude.{◌≡◌, ◌≤◌, ◌^◌, IfOk, IfSome, OnOk, length, option_map};
ghost use Rattle.meaning_rules.specs.Rules.{least_broken};
ghost use Rattle.meaning_typing.specs.Facts.{Declared};
ghost use Rattle.meaning_typing.specs.Surroundings.{surrounding_at};
ghost use Rattle.meaning_typing.specs.DeclarationRows as meaning_rows;
ghost use Rattle.meaning_typing.specs.WholeTyping as meaning;
ghost use Rattle.c_types.specs.Layouts.{told_in};
ghost use Rattle.c_types.specs.Table.{IsTypeId};
ghost use Rattle.decl_judge.specs.Units.{nodes_of};
ghost use Rattle.expr_judge.specs.Rows.{Tells};
ghost use Rattle.expression_rows.specs.Arguments.{Appends};
ghost use Rattle.expression_rows.specs.Rows.{IsKnownFailure, broken_seen, failure_listed};
ghost use Rattle.node_facts.specs.Facts.{IsKnownNodeFact, declared_seen, node_seen};
ghost use Rattle.node_surroundings.specs.Seen.{surrounding_seen, surroundings_seen};
ghost use Rattle.declaration_judge.specs.Kept.{IsKeptOf, facts_seen};

use crate::again::typedef_again;
use crate::declarations::Declarations;
use crate::otherwise::redeclared_otherwise;
use crate::row::and_breaks;
use c_tree::{Handle, Unit};
use decl_judge::token_at;
use declaration_rows::{
    declared_object_broken, definition_broken, has_initializer, hiding_declarator_failure,
    is_unbounded, undeclared_failure,
};
use expr_judge::{NodeRow, append, declaration_of};
use expression_rows::{Broken, lesser};
use node_facts::{DeclaredFact, NodeFact};
use node_surroundings::{Surrounding, Surroundings};
use sparse_model::{Failure, FailureList};
use std::alloc::AllocError;

// The least that it breaks at its name.
fn declaration_broken(
    unit: &Unit,
    _surroundings: &Surroundings,
    kept: &Declarations,
    handle: Handle,
    surrounding: Surrounding,
    declaration: DeclaredFact,
) -> Option<Broken>
    requires whole { unit.now.first ≡ 0 }
    requires next { length kept.now.facts ≡ handle }
    requires kept { IsKeptOf (nodes_of unit.now) (surroundings_seen _surroundings.now) kept.now }
    requires stands { surrounding_seen surrounding ≡ surrounding_at (surroundings_seen _surroundings.now) handle }
    requires of { IsTypeId kept.now.types declaration.of }
    ensures { option_map broken_seen result ≡ least_broken (meaning.declaration_broken (told_in kept.now.types) (nodes_of unit.now) (surroundings_seen _surroundings.now) (facts_seen kept.now) handle (surrounding_seen surrounding) (declared_seen kept.now.types declaration)) }
{
    let token = token_at(unit, handle);
    let again = typedef_again(kept, token, surrounding.around.scope, declaration);
    let object = declared_object_broken(unit, &kept.types, token, surrounding, declaration);
    let twice = definition_broken(unit, &kept.defined, handle, surrounding, declaration);
    let own = lesser(again, object);
    lesser(own, twice)
}

/// The least that the name breaks of what is known so of its declarator, whatever its type is.
pub fn defined_name_broken(
    unit: &Unit,
    _surroundings: &Surroundings,
    kept: &Declarations,
    handle: Handle,
    surrounding: Surrounding,
    fact: NodeFact,
) -> Option<Broken>
    requires whole { unit.now.first ≡ 0 }
    requires next { length kept.now.facts ≡ handle }
    requires kept { IsKeptOf (nodes_of unit.now) (surroundings_seen _surroundings.now) kept.now }
    requires stands { surrounding_seen surrounding ≡ surrounding_at (surroundings_seen _surroundings.now) handle }
    ensures { option_map broken_seen result ≡ least_broken (meaning_rows.defined_name_broken (nodes_of unit.now) (surroundings_seen _surroundings.now) (facts_seen kept.now) handle (node_seen kept.now.types fact)) }
{
    match fact {
        NodeFact::Declared(declaration) => {
            definition_broken(unit, &kept.defined, handle, surrounding, declaration)
        }
        NodeFact::Unknown => None,
        NodeFact::Expression(_) => None,
        NodeFact::Specified(_) => None,
        NodeFact::NamedType(_) => None,
    }
}

// The failure of a declaration that differs from an earlier one: where its initializer says its length, it is asked behind that.
fn differing(
    unit: &Unit,
    surroundings: &Surroundings,
    kept: &Declarations,
    handle: Handle,
    surrounding: Surrounding,
    declaration: DeclaredFact,
) -> Result<Option<Failure>, AllocError>
    requires whole { unit.now.first ≡ 0 }
    requires surroundings { length surroundings.now ≡ length unit.now.nodes }
    requires kept { IsKeptOf (nodes_of unit.now) (surroundings_seen surroundings.now) kept.now }
    requires of { IsTypeId kept.now.types declaration.of }
    ensures listed { IfOk result (λ failure. failure_listed kept.now.types failure ≡ meaning.differing_failures (nodes_of unit.now) (surroundings_seen surroundings.now) (facts_seen kept.now) handle (surrounding_seen surrounding) (declared_seen kept.now.types declaration)) }
    ensures known { IfOk result (λ failure. IfSome failure (IsKnownFailure kept.now.types)) }
{
    if is_unbounded(&kept.types, declaration.of) && has_initializer(unit, surrounding) {
        return Ok(None);
    }
    redeclared_otherwise(unit, surroundings, kept, handle, surrounding, declaration)
}

// The rules that fail there are appended.
fn append_failures(
    unit: &Unit,
    surroundings: &Surroundings,
    kept: &Declarations,
    found: &mut FailureList,
    handle: Handle,
    surrounding: Surrounding,
    declaration: DeclaredFact,
) -> Result<(), AllocError>
    requires whole { unit.now.first ≡ 0 }
    requires surroundings { length surroundings.now ≡ length unit.now.nodes }
    requires next { length kept.now.facts ≡ handle }
    requires kept { IsKeptOf (nodes_of unit.now) (surroundings_seen surroundings.now) kept.now }
    requires of { IsTypeId kept.now.types declaration.of }
    ensures { OnOk result (Appends kept.now.types found.old found.new (meaning.declaration_failures (nodes_of unit.now) (surroundings_seen surroundings.now) (facts_seen kept.now) handle (surrounding_seen surrounding) (declared_seen kept.now.types declaration))) }
{
    let Declarations {
        types,
        facts,
        linked,
        ..
    } = kept;
    let token = token_at(unit, handle);
    let otherwise = differing(unit, surroundings, kept, handle, surrounding, declaration)?;
    append(found, otherwise)?;
    let undeclared = undeclared_failure(
        unit,
        types,
        facts,
        linked,
        token,
        surrounding,
        declaration,
    );
    append(found, undeclared)?;
    let hiding = hiding_declarator_failure(
        unit,
        surroundings,
        facts,
        handle,
        surrounding,
        declaration,
    );
    append(found, hiding)?;
    Ok(())
}

// The row of a declaration, but for the parts of its declarator.
fn declared(
    unit: &Unit,
    surroundings: &Surroundings,
    kept: &Declarations,
    found: &mut FailureList,
    handle: Handle,
    surrounding: Surrounding,
    declaration: DeclaredFact,
) -> Result<NodeRow, AllocError>
    requires whole { unit.now.first ≡ 0 }
    requires surroundings { length surroundings.now ≡ length unit.now.nodes }
    requires next { length kept.now.facts ≡ handle }
    requires kept { IsKeptOf (nodes_of unit.now) (surroundings_seen surroundings.now) kept.now }
    requires stands { surrounding_seen surrounding ≡ surrounding_at (surroundings_seen surroundings.now) handle }
    requires of { IsTypeId kept.now.types declaration.of }
    ensures { IfOk result (λ row. Tells kept.now.types kept.now.types found.old found.new row (meaning.declaration_row_by (told_in kept.now.types) (nodes_of unit.now) (surroundings_seen surroundings.now) (facts_seen kept.now) handle (surrounding_seen surrounding) (Declared (declared_seen kept.now.types declaration)))) }
{
    append_failures(
        unit,
        surroundings,
        kept,
        found,
        handle,
        surrounding,
        declaration,
    )?;
    let broken = declaration_broken(unit, surroundings, kept, handle, surrounding, declaration);
    let row = NodeRow::known(NodeFact::Declared(declaration));
    Ok(and_breaks(row, broken))
}

/// The row of a declaration with this handle, which stands so, by what is known of its declarator, but for the parts of that: the
/// declarator of a member isn't asked. It takes a few steps, and one for each attribute.
pub fn declaration(
    unit: &Unit,
    surroundings: &Surroundings,
    kept: &Declarations,
    found: &mut FailureList,
    handle: Handle,
    surrounding: Surrounding,
    fact: NodeFact,
) -> Result<NodeRow, AllocError>
    requires whole { unit.now.first ≡ 0 }
    requires surroundings { length surroundings.now ≡ length unit.now.nodes }
    requires next { length kept.now.facts ≡ handle }
    requires kept { IsKeptOf (nodes_of unit.now) (surroundings_seen surroundings.now) kept.now }
    requires stands { surrounding_seen surrounding ≡ surrounding_at (surroundings_seen surroundings.now) handle }
    requires fact { IsKnownNodeFact kept.now.types fact }
    ensures { IfOk result (λ row. Tells kept.now.types kept.now.types found.old found.new row (meaning.declaration_row_by (told_in kept.now.types) (nodes_of unit.now) (surroundings_seen surroundings.now) (facts_seen kept.now) handle (surrounding_seen surrounding) (node_seen kept.now.types fact))) }
{
    match declaration_of(fact) {
        Some(declaration) => declared(
            unit,
            surroundings,
            kept,
            found,
            handle,
            surrounding,
            declaration,
        ),
        None => Ok(NodeRow::known(NodeFact::Unknown)),
    }
}
