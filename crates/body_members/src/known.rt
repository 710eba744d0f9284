// What is asked of what is known of nodes: facts in, the type of a declarator, what specifiers say and the number of a width out.
ghost use Rattle.std.specs.Prelude.{◌≡◌, All, IfOk, Some, option_map};
ghost use Rattle.meaning_typing.specs.Declarators as meaning;
ghost use Rattle.meaning_typing.specs.MemberDeclarations as members;
ghost use Rattle.node_facts.specs.Facts.{IsKnownNodeFact, node_seen, nodes_seen};
ghost use Rattle.decl_judge.specs.Asked.{specifiers_kept};
ghost use Rattle.decl_judge.specs.Units.{nodes_of};

use c_tree::{Handle, Unit};
use c_types::Types;
use decl_judge::specifiers_of;
use node_facts::{NodeFact, NodeFacts, part_of};
use sparse_model::TypeId;
use std::alloc::AllocError;

/// The type that the specifiers of a declaration name, if it is known: they are its first part.
pub fn specified_type(unit: &Unit, facts: &NodeFacts, declaration: Handle) -> Option<TypeId>
    requires { unit.now.first ≡ 0 }
    ensures { result ≡ option_map (λ said. said.of) (specifiers_kept (nodes_of unit.now) facts.now declaration) }
{
    let specifiers = specifiers_of(unit, facts, declaration)?;
    Some(specifiers.of)
}

// The bits that a number gives, if it isn't below 0. A width that is known is no more than its type has bits, so one of more
// than 32 bits is want of memory.
fn bits_of(number: i128) -> Result<Option<u32>, AllocError>
    ensures { IfOk result (λ bits. bits ≡ meaning.length_of_number (Some number)) }
{
    if number < 0 {
        return Ok(None);
    }
    match u32::try_from(number) {
        Ok(bits) => Ok(Some(bits)),
        Err(_) => Err(AllocError),
    }
}

fn bits_of_constant(number: Option<i128>) -> Result<Option<u32>, AllocError>
    ensures { IfOk result (λ bits. bits ≡ meaning.length_of_number number) }
{
    match number {
        None => Ok(None),
        Some(number) => bits_of(number),
    }
}

// The bits that the constant of a width gives.
fn bits_by(types: &Types, width: NodeFact) -> Result<Option<u32>, AllocError>
    requires { IsKnownNodeFact types.now width }
    ensures { IfOk result (λ bits. bits ≡ meaning.length_said (node_seen types.now width)) }
{
    match width {
        NodeFact::Expression(expression) => {
            bits_of_constant(part_of(types, expression.node).number)
        }
        _ => Ok(None),
    }
}

/// The bits of a bit-field with this width.
pub fn width_said(
    types: &Types,
    facts: &NodeFacts,
    width: Option<Handle>,
) -> Result<Option<u32>, AllocError>
    requires { All (IsKnownNodeFact types.now) facts.now }
    ensures { IfOk result (λ bits. bits ≡ members.width_said (nodes_seen types.now facts.now) width) }
{
    match width {
        None => Ok(None),
        Some(width) => bits_by(types, facts.at(width)),
    }
}
