// A declarator where it stands (C11 6.7.6): what it stands in and its parts in, the least that it breaks and the least array that is
// too large out. What it declares isn't told here.
ghost use Rattle.std.specs.Prelude.{◌≡◌, ◌<◌, All, IfOk, OnOk, option_map};
ghost use Rattle.meaning_rules.specs.Rules.{least_broken, least_token};
ghost use Rattle.meaning_tree.specs.Nodes.{end_of};
ghost use Rattle.meaning_typing.specs.DeclarationRows as meaning;
ghost use Rattle.meaning_typing.specs.Declarators.{specifiers_of as specifiers_said};
ghost use Rattle.meaning_typing.specs.Units.{children_at};
ghost use Rattle.meaning_typing.specs.WholeTyping.{large_by};
ghost use Rattle.c_types.specs.Layouts.{told_in};
ghost use Rattle.c_types.specs.Table.{IsTypeId};
ghost use Rattle.decl_judge.specs.Units.{handles_of, nodes_of};
ghost use Rattle.expression_rows.specs.Rows.{broken_seen};
ghost use Rattle.node_facts.specs.Facts.{IsKnownNodeFact, nodes_seen, specified_seen};
ghost use Rattle.node_facts.specs.Growing.{TypesJoin};
ghost use Rattle.node_surroundings.specs.Seen.{surrounding_seen};
ghost use Rattle.declaration_rows.specs.Declarators.{broken_behind, large_behind};

use crate::bitwise::own_bitwise_broken;
use crate::parts::judge_parts;
use c_tree::{Handle, Unit};
use c_types::Types;
use decl_judge::{specifiers_of, token_at};
use expression_rows::{Broken, lesser};
use node_facts::{NodeFacts, SpecifiedFact};
use node_surroundings::Surrounding;
use std::alloc::{AllocError, Global};
use tag_list::TagList;

/// What a declarator breaks and passes by its parts and its attributes.
#[derive(Clone, Copy, Debug, PartialEq, Eq)]
pub struct DeclaratorParts {
    /// The least constraint.
    pub broken: Option<Broken>,
    /// The least token at which an array is larger than an object may be.
    pub passed: Option<u32>,
}

// Of these parts, behind these specifiers.
fn parts_behind(
    alloc: Global,
    unit: &Unit,
    facts: &NodeFacts,
    types: &mut Types,
    surrounding: Surrounding,
    parts: &TagList,
    specifiers: SpecifiedFact,
) -> Result<DeclaratorParts, AllocError>
    requires whole { unit.now.first ≡ 0 }
    requires facts { All (IsKnownNodeFact types.old) facts.now }
    requires specifiers { IsTypeId types.old specifiers.of }
    ensures broken { IfOk result (λ found. option_map broken_seen found.broken ≡ least_broken (broken_behind (told_in types.old) (nodes_of unit.now) (nodes_seen types.old facts.now) (handles_of parts.now) (surrounding_seen surrounding) (specified_seen types.old specifiers))) }
    ensures passed { IfOk result (λ found. found.passed ≡ least_token (large_behind (told_in types.old) (nodes_of unit.now) (nodes_seen types.old facts.now) surrounding.parent (handles_of parts.now) (specified_seen types.old specifiers))) }
    ensures keeps { OnOk result (TypesJoin types.old types.new) }
{
    let token = token_at(unit, surrounding.parent);
    let judged = judge_parts(alloc, unit, facts, types, token, parts, specifiers.of)?;
    let own = own_bitwise_broken(
        unit,
        types,
        surrounding.parent,
        surrounding.place,
        judged.made,
    );
    Ok(DeclaratorParts {
        broken: lesser(judged.broken, own),
        passed: judged.passed,
    })
}

/// What the parts and the attributes of the declarator with this handle break and pass, which stands so. It takes the steps of its
/// parts, and one for each of its attributes.
pub fn declarator_parts(
    alloc: Global,
    unit: &Unit,
    facts: &NodeFacts,
    types: &mut Types,
    surrounding: Surrounding,
    handle: Handle,
) -> Result<DeclaratorParts, AllocError>
    requires whole { unit.now.first ≡ 0 }
    requires handle { handle < end_of unit.now }
    requires facts { All (IsKnownNodeFact types.old) facts.now }
    ensures broken { IfOk result (λ found. option_map broken_seen found.broken ≡ least_broken (meaning.declarator_parts_broken (told_in types.old) (nodes_of unit.now) (nodes_seen types.old facts.now) handle (surrounding_seen surrounding) (specifiers_said (nodes_of unit.now) (nodes_seen types.old facts.now) surrounding.parent))) }
    ensures passed { IfOk result (λ found. found.passed ≡ least_token (large_by (told_in types.old) (nodes_of unit.now) (nodes_seen types.old facts.now) surrounding.parent (children_at (nodes_of unit.now) handle) (specifiers_said (nodes_of unit.now) (nodes_seen types.old facts.now) surrounding.parent))) }
    ensures keeps { OnOk result (TypesJoin types.old types.new) }
{
    let parts = &unit.node(handle).children;
    match specifiers_of(unit, facts, surrounding.parent) {
        Some(specifiers) => parts_behind(alloc, unit, facts, types, surrounding, parts, specifiers),
        None => Ok(DeclaratorParts {
            broken: None,
            passed: None,
        }),
    }
}
