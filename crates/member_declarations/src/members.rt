// The row of a member's declarator (C11 6.7.2.1 p3, p13, p18): where it stands and what is known of the nodes before it in, the row
// out. Whether its name is declared twice is told by who calls.
ghost use Rattle.std.specs.Prelude.{◌≡◌, ◌<◌, ◌+◌, ◌++◌, All, IfOk, List, OnOk, option_map};
ghost use Rattle.vocabulary.specs.declared.node_kind.NodeKind.TheVariants.{Declarator, MemberDeclaration};
ghost use Rattle.meaning_operands.specs.Failures as failures;
ghost use Rattle.meaning_rules.specs.Rules.{least_broken};
ghost use Rattle.meaning_tree.specs.Laid.{IsLaid};
ghost use Rattle.meaning_tree.specs.Nodes.{end_of};
ghost use Rattle.meaning_typing.specs.Declarators.{type_declared};
ghost use Rattle.meaning_typing.specs.MemberRows as meaning;
ghost use Rattle.meaning_typing.specs.Surroundings.{surrounding_at};
ghost use Rattle.meaning_typing.specs.Units.{kind_at as kind_of};
ghost use Rattle.c_types.specs.Layouts.{told_in};
ghost use Rattle.c_types.specs.Table.{IsTypeId, type_at};
ghost use Rattle.node_facts.specs.Facts.{IsKnownNodeFact, node_seen, nodes_seen};
ghost use Rattle.node_facts.specs.Growing.{TypesJoin};
ghost use Rattle.expression_rows.specs.Rows.{broken_seen, told};
ghost use Rattle.decl_judge.specs.Units.{nodes_of};
ghost use Rattle.node_surroundings.specs.Seen.{AreSurroundingsOf, surroundings_seen};
ghost use Rattle.member_declarations.specs.Flexible.{IsToldOf};
ghost use Rattle.member_declarations.specs.Members.{list_around, type_broken};
ghost use Rattle.member_declarations.specs.Seen.{row_seen};

use crate::bit_fields::has_name;
use crate::fact::member_fact;
use crate::flexible::{FlexiblePlace, may_be_flexible};
use crate::open_arrays::is_flexible;
use crate::row::MemberRow;
use c_tree::{Handle, Unit};
use c_types::Types;
use decl_judge::token_at;
use declaration_rows::{incomplete_name, is_no_object};
use expression_rows::Broken;
use node_facts::{NodeFact, NodeFacts};
use node_surroundings::Surroundings;
use sparse_model::TypeId;
use std::alloc::{AllocError, Global};

// What a member of this type breaks at its token.
fn member_broken(
    types: &Types,
    token: u32,
    is_named: bool,
    may_be_flexible: bool,
    of: TypeId,
) -> Option<Broken>
    requires { IsTypeId types.now of }
    ensures { option_map broken_seen result ≡ least_broken (meaning.member_broken (told_in types.now) token is_named may_be_flexible (type_at types.now of)) }
{
    if !is_named || (may_be_flexible && is_flexible(types, of)) {
        None
    } else {
        incomplete_name(token, is_no_object(types, of))
    }
}

// The same of what is known of its declarator.
fn fact_broken(
    types: &Types,
    token: u32,
    is_named: bool,
    may_be_flexible: bool,
    fact: NodeFact,
) -> Option<Broken>
    requires { IsKnownNodeFact types.now fact }
    ensures { option_map broken_seen result ≡ least_broken (type_broken (told_in types.now) token is_named may_be_flexible (type_declared (node_seen types.now fact))) }
{
    match fact {
        NodeFact::Declared(declaration) => {
            member_broken(types, token, is_named, may_be_flexible, declaration.of)
        }
        _ => None,
    }
}

/// The row of the declarator with this handle, which stands in a declaration of members and of which this is known, where what is
/// kept is that of its body and this is broken by its name, if something is. `IncompleteType` is broken at its token where its type
/// is void, a function, or not complete, unless it has no name, or is an array without a length that may be flexible. What its
/// name breaks leaves it its type. It takes a few steps.
pub fn member_row(
    unit: &Unit,
    surroundings: &Surroundings,
    types: &Types,
    body: FlexiblePlace,
    handle: Handle,
    fact: NodeFact,
    declared_twice: Option<Broken>,
) -> MemberRow
    requires whole { unit.now.first ≡ 0 }
    requires laid { IsLaid unit.now }
    requires surroundings { AreSurroundingsOf unit.now surroundings.now }
    requires part { handle + 1 < end_of unit.now }
    requires declaration { (surrounding_at (surroundings_seen surroundings.now) handle).parent + 1 < end_of unit.now }
    requires kind { kind_of (nodes_of unit.now) handle ≡ Declarator }
    requires member { kind_of (nodes_of unit.now) (surrounding_at (surroundings_seen surroundings.now) handle).parent ≡ MemberDeclaration }
    requires body { IsToldOf (nodes_of unit.now) (list_around (surroundings_seen surroundings.now) handle) body }
    requires fact { IsKnownNodeFact types.now fact }
    ensures row { (names : List failures.Broken) → option_map broken_seen declared_twice ≡ least_broken names
        → row_seen types.now result ≡ told (meaning.member_declarator_by (meaning.typed_member_broken (nodes_of unit.now) (surroundings_seen surroundings.now) (told_in types.now) handle (surrounding_at (surroundings_seen surroundings.now) handle).parent (type_declared (node_seen types.now fact))) names (node_seen types.now fact)) }
    ensures known { IsKnownNodeFact types.now result.fact }
{
    let declaration = surroundings.get(handle).parent;
    let is_named = has_name(unit, handle);
    let flexible = may_be_flexible(unit, surroundings, body, handle, declaration);
    let broken = fact_broken(types, token_at(unit, handle), is_named, flexible, fact);
    MemberRow::unless(broken, fact, None).breaking(declared_twice)
}

/// The row of the declarator with this handle, which stands in a declaration of members, where what is kept is that of its body and
/// this is broken by its name, if something is. It takes the steps of [`member_fact`] and of [`member_row`].
pub fn judge_member(
    alloc: Global,
    unit: &Unit,
    surroundings: &Surroundings,
    facts: &NodeFacts,
    types: &mut Types,
    body: FlexiblePlace,
    handle: Handle,
    declared_twice: Option<Broken>,
) -> Result<MemberRow, AllocError>
    requires whole { unit.now.first ≡ 0 }
    requires laid { IsLaid unit.now }
    requires surroundings { AreSurroundingsOf unit.now surroundings.now }
    requires part { handle + 1 < end_of unit.now }
    requires declaration { (surrounding_at (surroundings_seen surroundings.now) handle).parent + 1 < end_of unit.now }
    requires kind { kind_of (nodes_of unit.now) handle ≡ Declarator }
    requires member { kind_of (nodes_of unit.now) (surrounding_at (surroundings_seen surroundings.now) handle).parent ≡ MemberDeclaration }
    requires body { IsToldOf (nodes_of unit.now) (list_around (surroundings_seen surroundings.now) handle) body }
    requires name { option_map broken_seen declared_twice ≡ least_broken (meaning.name_broken (nodes_of unit.now) (surroundings_seen surroundings.now) handle) }
    requires facts { All (IsKnownNodeFact types.old) facts.now }
    ensures row { IfOk result (λ row. row_seen types.new row ≡ told (meaning.member_declarator_row (nodes_of unit.now) (surroundings_seen surroundings.now) (told_in types.old) (nodes_seen types.old facts.now) handle (surrounding_at (surroundings_seen surroundings.now) handle))) }
    ensures known { IfOk result (λ row. IsKnownNodeFact types.new row.fact) }
    ensures keeps { OnOk result (TypesJoin types.old types.new) }
{
    let standing = surroundings.get(handle);
    let fact = member_fact(alloc, unit, facts, types, standing, handle)?;
    let row = member_row(
        unit,
        surroundings,
        types,
        body,
        handle,
        fact,
        declared_twice,
    );
    Ok(row)
}
