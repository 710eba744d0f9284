// The rows of declarators (C11 6.7.2.1, 6.7.6): those of members, and of all others.
ghost use Rattle.std.specs.Prelude.{◌≡◌, ◌<◌, IfOk, OnOk, true, length};
ghost use Rattle.vocabulary.specs.declared.node_kind.NodeKind.TheVariants as kinds;
ghost use Rattle.meaning_tree.specs.Laid.{IsLaid};
ghost use Rattle.meaning_tree.specs.Nodes.{end_of};
ghost use Rattle.meaning_typing.specs.MemberRows.{is_member_declaration};
ghost use Rattle.meaning_typing.specs.Surroundings.{surrounding_at};
ghost use Rattle.meaning_typing.specs.Units.{kind_at as kind_of};
ghost use Rattle.decl_judge.specs.Units.{nodes_of};
ghost use Rattle.expr_judge.specs.Rows.{Tells};
ghost use Rattle.node_surroundings.specs.Seen.{AreSurroundingsOf, surroundings_seen};
ghost use Rattle.node_judge.specs.Known.{IsKnownOf, facts_seen, table_of};
ghost use Rattle.node_judge.specs.Rows.{row_over};

use crate::known::Known;
use crate::widths::{is_part, take_member_row};
use c_tree::{Handle, Unit};
use decl_judge::kind_at;
use declaration_judge::{Declarations, declarator as other_declarator, with_passed, without_type};
use expr_judge::NodeRow;
use member_declarations::{declarator_parts, judge_member};
use member_names::name_broken;
use node_surroundings::Surroundings;
use sparse_model::{FailureList, NodeKind};
use std::alloc::{AllocError, Global};

fn is_member_declaration(kind: NodeKind) -> bool
    ensures { result ≡ is_member_declaration kind }
{
    match kind {
        NodeKind::MemberDeclaration => true,
        _ => false,
    }
}

// The row of the declarator of a member.
fn member_declarator(
    alloc: Global,
    unit: &Unit,
    surroundings: &Surroundings,
    known: &mut Known,
    found: &mut FailureList,
    handle: Handle,
) -> Result<NodeRow, AllocError>
    requires whole { unit.now.first ≡ 0 }
    requires laid { IsLaid unit.now }
    requires node { handle < end_of unit.now }
    requires surroundings { AreSurroundingsOf unit.now surroundings.now }
    requires all { length surroundings.now ≡ length unit.now.nodes }
    requires kind { kind_of (nodes_of unit.now) handle ≡ kinds.Declarator }
    requires member { is_member_declaration (kind_of (nodes_of unit.now) (surrounding_at (surroundings_seen surroundings.now) handle).parent) ≡ true }
    requires known { IsKnownOf (nodes_of unit.now) (surroundings_seen surroundings.now) handle (facts_seen known.old) known.old }
    ensures says { IfOk result (λ row. Tells (table_of known.old) (table_of known.new) found.old found.new row (row_over (nodes_of unit.now) (surroundings_seen surroundings.now) (table_of known.old) known.old.declarations.facts handle kinds.Declarator)) }
    ensures keeps { OnOk result (IsKnownOf (nodes_of unit.now) (surroundings_seen surroundings.now) handle (facts_seen known.old) known.new) }
{
    let surrounding = surroundings.get(handle);
    if !is_part(unit, handle) || !is_part(unit, surrounding.parent) {
        return Err(AllocError);
    }
    let Known {
        declarations,
        names,
        places,
        ..
    } = known;
    let Declarations { types, facts, .. } = declarations;
    let list = surroundings.get(surrounding.parent).parent;
    let body = places.of(unit, list)?;
    let parts = declarator_parts(alloc, unit, facts, types, surrounding, handle)?;
    let twice = name_broken(unit, names, handle);
    match parts.broken {
        None => {
            let row = judge_member(alloc, unit, surroundings, facts, types, body, handle, twice)?;
            let taken = take_member_row(row, found)?;
            Ok(with_passed(taken, parts.passed))
        }
        Some(broken) => Ok(without_type(broken, twice, parts.passed)),
    }
}

/// The row of the declarator with this handle. The rules that fail are appended. It takes the steps of its parts, one for each
/// attribute, and one for each part between it and its width, or the next declarator. A member without a list around, which none has
/// that was read, is want of memory.
pub fn declarator(
    alloc: Global,
    unit: &Unit,
    surroundings: &Surroundings,
    known: &mut Known,
    found: &mut FailureList,
    handle: Handle,
) -> Result<NodeRow, AllocError>
    requires whole { unit.now.first ≡ 0 }
    requires laid { IsLaid unit.now }
    requires node { handle < end_of unit.now }
    requires surroundings { AreSurroundingsOf unit.now surroundings.now }
    requires all { length surroundings.now ≡ length unit.now.nodes }
    requires kind { kind_of (nodes_of unit.now) handle ≡ kinds.Declarator }
    requires known { IsKnownOf (nodes_of unit.now) (surroundings_seen surroundings.now) handle (facts_seen known.old) known.old }
    ensures says { IfOk result (λ row. Tells (table_of known.old) (table_of known.new) found.old found.new row (row_over (nodes_of unit.now) (surroundings_seen surroundings.now) (table_of known.old) known.old.declarations.facts handle kinds.Declarator)) }
    ensures keeps { OnOk result (IsKnownOf (nodes_of unit.now) (surroundings_seen surroundings.now) handle (facts_seen known.old) known.new) }
{
    let parent = surroundings.get(handle).parent;
    if is_member_declaration(kind_at(unit, parent)) {
        return member_declarator(alloc, unit, surroundings, known, found, handle);
    }
    let kept = &mut known.declarations;
    other_declarator(alloc, unit, surroundings, kept, found, handle)
}
