// Declarators by their nodes (C11 6.7.6): what is declared, what its parts break besides, and the arrays among them that are too large.
// Members of structures and unions aren't known here.
ghost use Rattle.std.specs.Prelude.{◌≡◌, ◌<◌, false, IfOk, List, OnOk, Some, length, option_map};
ghost use Rattle.meaning_operands.specs.Failures as failures;
ghost use Rattle.meaning_rules.specs.Rules.{least_broken, least_token};
ghost use Rattle.meaning_tree.specs.Nodes.{end_of};
ghost use Rattle.meaning_typing.specs.MemberRows.{is_member_declaration};
ghost use Rattle.meaning_typing.specs.Surroundings.{surrounding_at};
ghost use Rattle.meaning_typing.specs.Units.{kind_at};
ghost use Rattle.meaning_typing.specs.WholeTyping.{whole_declarator_row};
ghost use Rattle.c_types.specs.Layouts.{told_in};
ghost use Rattle.c_types.specs.Table.{TypeTable};
ghost use Rattle.decl_judge.specs.Units.{nodes_of};
ghost use Rattle.expr_judge.specs.Rows.{Tells, row_seen};
ghost use Rattle.expression_rows.specs.Rows.{broken_seen};
ghost use Rattle.node_facts.specs.Facts.{IsKnownNodeFact};
ghost use Rattle.node_surroundings.specs.Seen.{surroundings_seen};
ghost use Rattle.declaration_judge.specs.Kept.{IsKeptOf, OnlyTypesJoin, facts_seen};
ghost use Rattle.declaration_judge.specs.Rows.{row_without_type};

use crate::declarations::Declarations;
use crate::declared::{declaration, defined_name_broken};
use c_tree::{Handle, Unit};
use decl_judge::{DeclaratorPlace, declarator_fact};
use declaration_rows::declarator_parts;
use expr_judge::NodeRow;
use expression_rows::{Broken, lesser};
use node_facts::NodeFact;
use node_surroundings::Surroundings;
use sparse_model::FailureList;
use std::alloc::{AllocError, Global};

/// The row of a declarator whose parts break something: nothing is known of it, and its name alone is asked.
pub fn without_type(parts: Broken, names: Option<Broken>, passed: Option<u32>) -> NodeRow
    ensures seen { (table : TypeTable) → row_seen table result ≡ row_without_type (Some (broken_seen parts)) (option_map broken_seen names) passed }
    ensures known { (table : TypeTable) → IsKnownNodeFact table result.fact }
{
    NodeRow {
        fact: NodeFact::Unknown,
        broken: lesser(Some(parts), names),
        passed,
    }
}

/// The row of a declaration, with the least array among the parts of its declarator that is too large.
pub fn with_passed(row: NodeRow, passed: Option<u32>) -> NodeRow
    ensures seen { (table : TypeTable) → row_seen table result ≡ record (row_seen table row) { passed = passed } }
    ensures known { (table : TypeTable) → IsKnownNodeFact table row.fact → IsKnownNodeFact table result.fact }
{
    NodeRow { passed, ..row }
}

/// The row of the declarator with this handle, which is none of a member. It takes the steps of its parts, and one for each
/// attribute.
pub fn declarator(
    alloc: Global,
    unit: &Unit,
    surroundings: &Surroundings,
    kept: &mut Declarations,
    found: &mut FailureList,
    handle: Handle,
) -> Result<NodeRow, AllocError>
    requires whole { unit.now.first ≡ 0 }
    requires node { handle < end_of unit.now }
    requires surroundings { length surroundings.now ≡ length unit.now.nodes }
    requires next { length kept.old.facts ≡ handle }
    requires kept { IsKeptOf (nodes_of unit.now) (surroundings_seen surroundings.now) kept.old }
    requires declares { is_member_declaration (kind_at (nodes_of unit.now) (surrounding_at (surroundings_seen surroundings.now) handle).parent) ≡ false }
    ensures says { IfOk result (λ row. Tells kept.old.types kept.new.types found.old found.new row (whole_declarator_row (told_in kept.old.types) (nodes_of unit.now) (surroundings_seen surroundings.now) (facts_seen kept.old) handle (surrounding_at (surroundings_seen surroundings.now) handle))) }
    ensures keeps { OnOk result (OnlyTypesJoin kept.old kept.new) }
{
    let surrounding = surroundings.get(handle);
    let parts = declarator_parts(
        alloc,
        unit,
        &kept.facts,
        &mut kept.types,
        surrounding,
        handle,
    )?;
    let at = DeclaratorPlace {
        parent: surrounding.parent,
        place: surrounding.place,
        scope: surrounding.around.scope,
    };
    let fact = declarator_fact(alloc, unit, &kept.facts, &mut kept.types, at, handle)?;
    match parts.broken {
        None => {
            let row = declaration(unit, surroundings, kept, found, handle, surrounding, fact)?;
            Ok(with_passed(row, parts.passed))
        }
        Some(broken) => {
            let names = defined_name_broken(unit, surroundings, kept, handle, surrounding, fact);
            Ok(without_type(broken, names, parts.passed))
        }
    }
}
