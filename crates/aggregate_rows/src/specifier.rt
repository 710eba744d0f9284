// The specifier of a structure or a union (C11 6.7.2.1 p8, 6.7.2.3): its node, its body and what is kept of tags in, the row out.
ghost use Rattle.std.specs.Prelude.{◌≡◌, ◌<◌, Some, List, IfOk, IfSome, OnOk, option_map};
ghost use Rattle.meaning_tree.specs.Nodes.{end_of};
ghost use Rattle.meaning_typing.specs.Facts as facts;
ghost use Rattle.meaning_typing.specs.MemberDeclarations.{bodies_at};
ghost use Rattle.meaning_typing.specs.MemberRows as meaning;
ghost use Rattle.meaning_typing.specs.Surroundings as around;
ghost use Rattle.meaning_typing.specs.Units.{kind_at, node_at};
ghost use Rattle.c_types.specs.Layouts.{told_in};
ghost use Rattle.c_types.specs.Table.{IsBodyOver, types_in};
ghost use Rattle.node_facts.specs.Facts.{IsKnownNodeFact};
ghost use Rattle.node_facts.specs.Growing.{TypesJoin};
ghost use Rattle.expression_rows.specs.Rows.{told};
ghost use Rattle.decl_judge.specs.Units.{nodes_of};
ghost use Rattle.body_members.specs.Seen.{bodies_if, body_seen};
ghost use Rattle.tag_rows.specs.Kept.{StandsFor};
ghost use Rattle.aggregate_rows.specs.Seen.{passed_listed, row_seen, row_told};

use crate::layout::is_too_large;
use crate::row::AggregateRow;
use crate::types::aggregate_type;
use c_tree::{Handle, Unit};
use c_types::{AggregateBody, Types};
use expression_rows::Broken;
use node_facts::NodeFact;
use std::alloc::AllocError;
use tag_rows::{TagsSeen, tag_broken};

// Where the limit of the size of an object is passed: at the keyword.
fn passed_at(token: u32, is_too_large: bool) -> Option<u32>
    ensures { passed_listed result ≡ meaning.passed_at_body token is_too_large }
{
    if is_too_large { Some(token) } else { None }
}

// The row by what is broken at the tag: nothing is known where something is.
fn row_by(
    types: &mut Types,
    number: u64,
    is_union: bool,
    broken: Option<Broken>,
    passed: Option<u32>,
) -> Result<AggregateRow, AllocError>
    ensures says { IfOk result (λ row. row_seen types.new row ≡ row_told number is_union broken passed) }
    ensures known { IfOk result (λ row. IsKnownNodeFact types.new row.fact) }
    ensures keeps { OnOk result (TypesJoin types.old types.new) }
{
    let fact = match broken {
        Some(_) => NodeFact::Unknown,
        None => NodeFact::NamedType(aggregate_type(types, number, is_union)?),
    };
    Ok(AggregateRow {
        fact,
        broken,
        passed,
    })
}

/// The row of the specifier of a structure or a union that declares this body, if it declares one: it names its type, unless
/// something is broken at its tag; at its keyword an object of this type is too large, if one is by the layouts that the table was
/// told. It takes a few steps, and one for each member and for each of its parts. A number of more than 32 bits, which none has that
/// was read, is want of memory.
pub fn judge_aggregate_specifier(
    unit: &Unit,
    types: &mut Types,
    tags: &TagsSeen,
    body: Option<&AggregateBody>,
    handle: Handle,
    is_union: bool,
) -> Result<AggregateRow, AllocError>
    requires whole { unit.now.first ≡ 0 }
    requires node { handle < end_of unit.now }
    requires tags { StandsFor (nodes_of unit.now) tags.now }
    requires body { IfSome body (λ body. IsBodyOver (types_in types.old) body.now) }
    ensures says { IfOk result (λ row. (surroundings : List around.Surrounding) (known : List facts.Fact) → bodies_if (node_at (nodes_of unit.now) handle).number (option_map (λ body. body_seen types.old body.now) body.entry) ≡ bodies_at (nodes_of unit.now) surroundings known handle (kind_at (nodes_of unit.now) handle) → told_in types.old ≡ (meaning.aggregates_before (nodes_of unit.now) surroundings known).told → row_seen types.new row ≡ told (meaning.aggregate_specifier_row (nodes_of unit.now) surroundings known handle is_union)) }
    ensures known { IfOk result (λ row. IsKnownNodeFact types.new row.fact) }
    ensures keeps { OnOk result (TypesJoin types.old types.new) }
{
    let node = unit.node(handle);
    let is_too_large = is_too_large(types, body, is_union)?;
    let broken = tag_broken(unit, tags, handle)?;
    let passed = passed_at(node.token, is_too_large);
    row_by(types, node.number, is_union, broken, passed)
}
