// The rows of names (C11 6.5.1 p2, 6.7.2.2 p3), by what they stand for. How that is found isn't known here.
ghost use Rattle.std.specs.Prelude.{IfOk, IfSome, List, ℕ};
ghost use Rattle.sparse_model.specs.declared.failure.Failure.{Failure as Found};
ghost use Rattle.vocabulary.specs.declared.node_kind.NodeKind.TheVariants as kinds;
ghost use Rattle.meaning_typing.specs.Facts.{Fact};
ghost use Rattle.meaning_typing.specs.Surroundings.{Surrounding};
ghost use Rattle.meaning_typing.specs.Units.{UnitNodes};
ghost use Rattle.meaning_typing.specs.WholeTyping.{whole_row_by};
ghost use Rattle.c_types.specs.Table.{IsTypeId};
ghost use Rattle.expr_judge.specs.Rows.{Tells};
ghost use Rattle.member_rows.specs.Aggregates.{aggregates_in};
ghost use Rattle.node_facts.specs.Facts.{IsKnownNodeFact};
ghost use Rattle.whole_judge.specs.Names.{IsNameOfDeclaration, IsNameOfEnumerator};

use crate::loaded::as_loaded;
use c_types::Types;
use enum_rows::{Sharing, enumerator_name};
use expr_judge::{NodeRow, take_row};
use expression_rows::{DeclaredName, judge_name};
use node_facts::NodeFact;
use sparse_model::FailureList;
use std::alloc::AllocError;
use whole_rows::judge_loaded;

/// The row of a name at this token that stands for what a declarator declares, if something is known of one; its value is wanted or
/// not.
pub fn row_of_declared_name(
    types: &Types,
    token: u32,
    is_valued: bool,
    named: Option<DeclaredName>,
    found: &mut FailureList,
) -> Result<NodeRow, AllocError>
    requires { IfSome named (λ named. IsTypeId types.now named.of) }
    ensures { (nodes : UnitNodes) (surroundings : List Surrounding) (facts : List Fact) (handle : ℕ) → IsNameOfDeclaration types.now nodes surroundings facts handle token is_valued named → IfOk result (λ row. Tells types.now types.now found.old found.new row (whole_row_by (aggregates_in types.now) nodes surroundings facts handle kinds.Name)) }
{
    let row = judge_loaded(types, token, is_valued, judge_name(named));
    take_row(row, found)
}

/// The row of a name at this token that stands for an enumerator of which this is known: it may stand behind the enumeration, which
/// then says what all its enumerators share. It takes a few steps.
pub fn row_of_enumerator_name(
    types: &mut Types,
    token: u32,
    is_valued: bool,
    is_behind: bool,
    sharing: Sharing,
    fact: NodeFact,
) -> Result<NodeRow, AllocError>
    requires { IsKnownNodeFact types.old fact }
    ensures { (nodes : UnitNodes) (surroundings : List Surrounding) (facts : List Fact) (handle : ℕ) (found : List Found) → IsNameOfEnumerator types.old nodes surroundings facts handle token is_valued is_behind sharing fact → IfOk result (λ row. Tells types.old types.new found found row (whole_row_by (aggregates_in types.old) nodes surroundings facts handle kinds.Name)) }
{
    let named = enumerator_name(types, is_behind, sharing, fact)?;
    Ok(as_loaded(types, token, is_valued, NodeRow::known(named)))
}
