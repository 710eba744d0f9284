// Names that hide others (C11 6.2.1 p4): a declarator or an enumerator and where it stands in, the failure out. What it hides was found
// when the name was bound, and stands at its node as a handle and one.
ghost use Rattle.std.specs.Prelude.{◌≡◌, ◌&&◌, ◌≤◌, ◌^◌, IfSome, get_or, length, not};
ghost use Rattle.meaning_typing.specs.DeclarationRows as meaning;
ghost use Rattle.meaning_typing.specs.Units.{kind_at as kind_of, node_at as node_of_unit};
ghost use Rattle.c_types.specs.Table.{TypeTable};
ghost use Rattle.decl_judge.specs.Units.{nodes_of};
ghost use Rattle.expression_rows.specs.Rows.{IsKnownFailure, failure_listed};
ghost use Rattle.node_facts.specs.declared.fact.NodeFact.TheVariants.{Unknown};
ghost use Rattle.node_facts.specs.Facts.{declared_seen, name_seen, nodes_seen};
ghost use Rattle.node_surroundings.specs.Seen.{surrounding_seen, surroundings_seen};
ghost use Rattle.declaration_rows.specs.Failures.{hiding_with};
ghost use Rattle.declaration_rows.specs.Kept.{hides_kept, links_kept};

use crate::failures::failed_with;
use crate::objects::in_file;
use crate::parameters::is_list_of_body;
use crate::standing::standing_at;
use c_tree::{Handle, Unit};
use decl_judge::{kind_at, node_at, token_at};
use node_facts::{DeclaredFact, NodeFact, NodeFacts};
use node_surroundings::{Surrounding, Surroundings};
use sparse_model::{Failure, NameId, NodeKind, RuleCode};

// Whether a node declares this name with linkage.
fn links_same(name: NameId, fact: NodeFact) -> bool
    ensures { result ≡ links_kept name fact }
{
    match fact {
        NodeFact::Declared(declaration) => declaration.has_linkage && declaration.name.0 == name.0,
        _ => false,
    }
}

fn fact_numbered(facts: &NodeFacts, handle: u64) -> NodeFact
    requires { length facts.now ≤ 2 ^ 32 }
    ensures { result ≡ get_or facts.now handle Unknown }
{
    match Handle::try_from(handle) {
        Ok(handle) => facts.at(handle),
        Err(_) => NodeFact::Unknown,
    }
}

// Whether what a declaration hides is of the same object or function.
#[tactic(auto, using(crate::proofs::HidingLemmas::hides_from))]
fn hides_same(facts: &NodeFacts, number: u64, declaration: DeclaredFact) -> bool
    requires { length facts.now ≤ 2 ^ 32 }
    ensures { result ≡ hides_kept facts.now number declaration }
{
    if number == 0 {
        return false;
    }
    declaration.has_linkage && links_same(declaration.name, fact_numbered(facts, number - 1))
}

#[tactic(auto, using(crate::proofs::HidingLemmas::hiding_none, crate::proofs::HidingLemmas::hiding_some))]
fn hiding_failure(token: u32, number: u64, name: NameId, is_counted: bool) -> Option<Failure>
    ensures { result ≡ hiding_with token number name is_counted }
{
    if number == 0 || !is_counted {
        return None;
    }
    Some(failed_with(RuleCode::S2, token, name))
}

// Whether a declarator that stands so declares a name of a block, or a parameter of a body; those of other lists hide none.
fn is_block_name(unit: &Unit, surroundings: &Surroundings, surrounding: Surrounding) -> bool
    requires whole { unit.now.first ≡ 0 }
    requires surroundings { length surroundings.now ≡ length unit.now.nodes }
    ensures { result ≡ meaning.is_block_name (nodes_of unit.now) (surroundings_seen surroundings.now) (surrounding_seen surrounding) (kind_of (nodes_of unit.now) surrounding.parent) }
{
    match kind_at(unit, surrounding.parent) {
        NodeKind::Parameter => {
            let list = standing_at(unit, surroundings, surrounding.parent).parent;
            is_list_of_body(unit, surroundings, list)
        }
        NodeKind::Declaration => !in_file(unit, surrounding),
        _ => false,
    }
}

fn number_at(unit: &Unit, handle: Handle) -> u64
    requires { unit.now.first ≡ 0 }
    ensures { result ≡ (node_of_unit (nodes_of unit.now) handle).number }
{
    match node_at(unit, handle) {
        Some(node) => node.number,
        None => 0,
    }
}

fn name_at(unit: &Unit, handle: Handle) -> NameId
    requires { unit.now.first ≡ 0 }
    ensures { name_seen result ≡ (node_of_unit (nodes_of unit.now) handle).name }
{
    match node_at(unit, handle) {
        Some(node) => node.name,
        None => NameId(0),
    }
}

// Whether such a declarator of this number hides what isn't of the same object or function.
fn is_counted(
    unit: &Unit,
    surroundings: &Surroundings,
    facts: &NodeFacts,
    number: u64,
    surrounding: Surrounding,
    declaration: DeclaredFact,
) -> bool
    requires whole { unit.now.first ≡ 0 }
    requires surroundings { length surroundings.now ≡ length unit.now.nodes }
    requires few { length facts.now ≤ 2 ^ 32 }
    ensures { result ≡ (meaning.is_block_name (nodes_of unit.now) (surroundings_seen surroundings.now) (surrounding_seen surrounding) (kind_of (nodes_of unit.now) surrounding.parent) && not (hides_kept facts.now number declaration)) }
{
    is_block_name(unit, surroundings, surrounding) && !hides_same(facts, number, declaration)
}

/// The failure of a name that hides another one, at the token of its declarator, which stands so. It takes a few steps.
pub fn hiding_declarator_failure(
    unit: &Unit,
    surroundings: &Surroundings,
    facts: &NodeFacts,
    handle: Handle,
    surrounding: Surrounding,
    declaration: DeclaredFact,
) -> Option<Failure>
    requires whole { unit.now.first ≡ 0 }
    requires surroundings { length surroundings.now ≡ length unit.now.nodes }
    requires few { length facts.now ≤ 2 ^ 32 }
    ensures listed { (table : TypeTable) → failure_listed table result ≡ meaning.hiding_declarator_failures (nodes_of unit.now) (surroundings_seen surroundings.now) (nodes_seen table facts.now) handle (surrounding_seen surrounding) (declared_seen table declaration) }
    ensures known { (table : TypeTable) → IfSome result (IsKnownFailure table) }
{
    let number = number_at(unit, handle);
    hiding_failure(
        token_at(unit, handle),
        number,
        declaration.name,
        is_counted(unit, surroundings, facts, number, surrounding, declaration),
    )
}

/// The failure of an enumerator of a block that hides another name, at its token. It takes a few steps.
pub fn hiding_enumerator_failure(
    unit: &Unit,
    handle: Handle,
    surrounding: Surrounding,
) -> Option<Failure>
    requires { unit.now.first ≡ 0 }
    ensures listed { (table : TypeTable) → failure_listed table result ≡ meaning.hiding_enumerator_failures (nodes_of unit.now) handle (surrounding_seen surrounding) }
    ensures known { (table : TypeTable) → IfSome result (IsKnownFailure table) }
{
    hiding_failure(
        token_at(unit, handle),
        number_at(unit, handle),
        name_at(unit, handle),
        !in_file(unit, surrounding),
    )
}
