// The names of types: of restricted ones, which declarators tell, and of structures and unions, whose tags do. What is known of nodes
// isn't asked here.
ghost use Rattle.std.specs.Prelude.{◌≡◌, ◌<◌, [], IfOk, OnOk, Some, length};
ghost use Rattle.meaning_tree.specs.Nodes.{end_of};
ghost use Rattle.meaning_typing.specs.Units.{kind_at};
ghost use Rattle.c_types.specs.declared.bodies.Named.TheVariants as told;
ghost use Rattle.decl_judge.specs.Units.{nodes_of};
ghost use Rattle.node_facts.specs.Facts.{name_seen};
ghost use Rattle.node_surroundings.specs.Seen.{surroundings_seen};
ghost use Rattle.node_judge.specs.NamedTypes.{named_by, names_told, renamed, with_name_of, with_node};

use crate::bodies::aggregate_number;
use c_tree::{Handle, Unit};
use c_types::{Named, Types};
use decl_judge::token_at;
use node_surroundings::Surroundings;
use sparse_model::{NameId, NodeKind, Restrict};
use std::alloc::AllocError;

// The structure or the union with this number.
fn tagged(number: u64) -> Result<Option<Named>, AllocError>
    ensures { IfOk result (λ what. what ≡ Some (told.Tag number)) }
{
    Ok(Some(Named::Tag(aggregate_number(number)?)))
}

// What the name of a node names, if it names a type.
fn named_by(
    unit: &Unit,
    surroundings: &Surroundings,
    handle: Handle,
) -> Result<Option<Named>, AllocError>
    requires whole { unit.now.first ≡ 0 }
    requires node { handle < end_of unit.now }
    requires surroundings { length surroundings.now ≡ length unit.now.nodes }
    ensures { IfOk result (λ what. what ≡ named_by (nodes_of unit.now) (surroundings_seen surroundings.now) handle (kind_at (nodes_of unit.now) handle)) }
{
    let node = unit.node(handle);
    match node.kind {
        NodeKind::Declarator => {
            let token = token_at(unit, surroundings.get(handle).parent);
            Ok(Some(Named::Identity(Restrict(token))))
        }
        NodeKind::StructSpecifier => tagged(node.number),
        NodeKind::UnionSpecifier => tagged(node.number),
        _ => Ok(None),
    }
}

// Tells this name of a type, if there are both and it has none yet.
fn tell_name(types: &mut Types, what: Option<Named>, name: NameId) -> Result<(), AllocError>
    ensures { OnOk result (types.new ≡ renamed types.old (with_name_of types.old.names what (name_seen name))) }
{
    match what {
        Some(what) if name.0 != 0 => types.set_name(what, name),
        _ => Ok(()),
    }
}

// Tells the name of the type that a node names, if it names one.
fn name_type(
    unit: &Unit,
    surroundings: &Surroundings,
    types: &mut Types,
    handle: Handle,
) -> Result<(), AllocError>
    requires whole { unit.now.first ≡ 0 }
    requires node { handle < end_of unit.now }
    requires surroundings { length surroundings.now ≡ length unit.now.nodes }
    ensures { OnOk result (types.new ≡ renamed types.old (with_node (nodes_of unit.now) (surroundings_seen surroundings.now) handle types.old.names)) }
{
    let what = named_by(unit, surroundings, handle)?;
    tell_name(types, what, unit.node(handle).name)
}

/// Tells the names of the types of a unit, whose nodes stand in this: of each restricted type the name that its declaration declares
/// first, and of each structure and union its tag. It takes a step a node.
///
/// # Errors
/// Want of memory. It stands too for a number of more than 32 bits, which no specifier has that was read.
pub fn name_types(
    unit: &Unit,
    surroundings: &Surroundings,
    types: &mut Types,
) -> Result<(), AllocError>
    requires whole { unit.now.first ≡ 0 }
    requires surroundings { length surroundings.now ≡ length unit.now.nodes }
    requires none { types.old.names ≡ [] }
    ensures { OnOk result (types.new ≡ renamed types.old (names_told (nodes_of unit.now) (surroundings_seen surroundings.now) (length unit.now.nodes))) }
{
    for handle in 0..unit.len() {
        name_type(unit, surroundings, types, handle)?;
    }
    Ok(())
}
