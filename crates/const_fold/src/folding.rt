// The constant of a node of a unit.
ghost use Rattle.std.specs.Prelude.{◌≡◌, ◌<◌, All, option_map};
ghost use Rattle.meaning_tree.specs.Nodes.{end_of};
ghost use Rattle.const_fold.specs.Known.{IsKnownNode, folded_answer, node_constant_at};
ghost use Rattle.const_fold.specs.Seen.{seen_constant};
ghost use Rattle.const_fold.specs.Sized.{sized_constant_at};

use crate::constant::Constant;
use crate::facts::constant_of;
use crate::folded::Folded;
use crate::known::facts_of;
use crate::number::bits_of_number;
use crate::sized::bytes_of;
use c_tree::{Handle, Unit};
use c_types::{NodeTypes, Types};
use sparse_model::IntConst;

fn answer_of(constant: Option<Constant>) -> Folded
    ensures { result ≡ folded_answer (option_map seen_constant constant) }
{
    match constant {
        Some(Constant { kind, number }) => Folded::Value(IntConst {
            kind,
            bits: bits_of_number(number),
        }),
        None => Folded::NotConstant,
    }
}

/// The constant of a node (C11 6.6), one that asks for so many bytes: of `sizeof` the size of its part, of `_Alignof`
/// the alignment, of `__builtin_offsetof` how far its member lies, if there is one. Types and constants of its parts,
/// and of the enumerator that it names, stand in `nodes` by their handles. It takes no memory, and one step.
pub fn fold_measured(
    unit: &Unit,
    types: &Types,
    nodes: &NodeTypes,
    bytes: Option<u64>,
    e: Handle,
) -> Folded
    requires whole { unit.now.first ≡ 0 }
    requires node { e < end_of unit.now }
    requires kept { All (IsKnownNode types.now) nodes.now }
    ensures { result ≡ folded_answer (node_constant_at unit.now types.now nodes.now bytes e) }
{
    answer_of(constant_of(facts_of(unit, types, nodes, bytes, unit.node(e))))
}

/// The constant of a node by the layouts and the members of its unit's types (C11 6.6). Types and constants of its parts,
/// of the indices of designators, and of the enumerator that it names, stand in `nodes` by their handles. It takes no
/// memory, and one step; of a `__builtin_offsetof` one for each designator.
pub fn fold(unit: &Unit, types: &Types, nodes: &NodeTypes, e: Handle) -> Folded
    requires whole { unit.now.first ≡ 0 }
    requires node { e < end_of unit.now }
    requires kept { All (IsKnownNode types.now) nodes.now }
    ensures { result ≡ folded_answer (sized_constant_at unit.now types.now nodes.now e) }
{
    let bytes = bytes_of(unit, types, nodes, unit.node(e));
    fold_measured(unit, types, nodes, bytes, e)
}
