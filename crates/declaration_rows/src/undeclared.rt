// Definitions that weren't declared before (our rule on them): a declaration, where it stands and the declarations with linkage that
// are kept in, the failure out.
ghost use Rattle.std.specs.Prelude.{◌≡◌, IfSome, option_map};
ghost use Rattle.meaning_typing.specs.DeclarationRows as meaning;
ghost use Rattle.meaning_typing.specs.Declarators as declarators;
ghost use Rattle.c_types.specs.Table.{IsTypeId, TypeTable};
ghost use Rattle.decl_judge.specs.Units.{nodes_of};
ghost use Rattle.expression_rows.specs.Rows.{IsKnownFailure, failure_listed};
ghost use Rattle.node_facts.specs.Facts.{declared_seen, name_seen, nodes_seen, specified_seen};
ghost use Rattle.node_surroundings.specs.Seen.{surrounding_seen};
ghost use Rattle.declaration_rows.specs.Kept.{AreLinked};

use crate::failures::failed_with;
use crate::objects::{defines, in_file};
use crate::tentative::is_tentative;
use c_tree::{Handle, Unit};
use c_types::Types;
use decl_judge::specifiers_of;
use linked_names::LinkedNames;
use node_facts::{DeclaredFact, NodeFacts, SpecifiedFact};
use node_surroundings::Surrounding;
use sparse_model::{Failure, NameId, RuleCode};

fn is_static_said(specifiers: Option<SpecifiedFact>) -> bool
    ensures { (table : TypeTable) → result ≡ meaning.is_static_said (option_map (specified_seen table) specifiers) }
{
    match specifiers {
        Some(specifiers) => specifiers.storage.is_static,
        None => false,
    }
}

// Whether `static` is among the specifiers of a declaration.
fn is_static(unit: &Unit, _types: &Types, facts: &NodeFacts, declaration: Handle) -> bool
    requires { unit.now.first ≡ 0 }
    ensures { result ≡ meaning.is_static_said (declarators.specifiers_of (nodes_of unit.now) (nodes_seen _types.now facts.now) declaration) }
{
    is_static_said(specifiers_of(unit, facts, declaration))
}

/// Whether a name was declared with linkage among the nodes of which this is known. It takes a few steps.
pub fn is_declared_before(
    _types: &Types,
    _facts: &NodeFacts,
    linked: &LinkedNames,
    name: NameId,
) -> bool
    requires { AreLinked _types.now _facts.now linked.now }
    ensures { result ≡ meaning.is_declared_before (nodes_seen _types.now _facts.now) (name_seen name) }
{
    linked.type_of(name).is_some()
}

// Whether a declaration defines what wasn't declared before, at file scope and not static.
fn is_new_definition(
    unit: &Unit,
    types: &Types,
    facts: &NodeFacts,
    linked: &LinkedNames,
    surrounding: Surrounding,
    declaration: DeclaredFact,
) -> bool
    requires whole { unit.now.first ≡ 0 }
    requires linked { AreLinked types.now facts.now linked.now }
    requires of { IsTypeId types.now declaration.of }
    ensures { result ≡ meaning.is_new_definition (nodes_of unit.now) (nodes_seen types.now facts.now) (surrounding_seen surrounding) (declared_seen types.now declaration) }
{
    in_file(unit, surrounding)
        && declaration.has_linkage
        && !is_static(unit, types, facts, surrounding.parent)
        && (defines(unit, surrounding)
            || is_tentative(unit, types, facts, surrounding, declaration))
        && !is_declared_before(types, facts, linked, declaration.name)
}

/// The failure of a definition that wasn't declared before, at its name's token: one at file scope that isn't static.
pub fn undeclared_failure(
    unit: &Unit,
    types: &Types,
    facts: &NodeFacts,
    linked: &LinkedNames,
    token: u32,
    surrounding: Surrounding,
    declaration: DeclaredFact,
) -> Option<Failure>
    requires whole { unit.now.first ≡ 0 }
    requires linked { AreLinked types.now facts.now linked.now }
    requires of { IsTypeId types.now declaration.of }
    ensures listed { failure_listed types.now result ≡ meaning.undeclared_failures (nodes_of unit.now) (nodes_seen types.now facts.now) token (surrounding_seen surrounding) (declared_seen types.now declaration) }
    ensures known { IfSome result (IsKnownFailure types.now) }
{
    if is_new_definition(unit, types, facts, linked, surrounding, declaration) {
        Some(failed_with(RuleCode::S1, token, declaration.name))
    } else {
        None
    }
}
