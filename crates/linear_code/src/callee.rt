// The function that a call names: the one whose name is called, in parentheses or not (C11 6.5.2.2).
ghost use Rattle.std.specs.Prelude.{◌≡◌, option_map};
ghost use Rattle.meaning_typing.specs.Units as meaning;
ghost use Rattle.decl_judge.specs.Units.{nodes_of};
ghost use Rattle.linear_code.specs.Known.{function_note, function_of_kind, judged_unit, named_at};

use crate::facts::{ControlFacts, FunctionNote};
use c_tree::{Handle, Unit};
use decl_judge::{child_at, kind_at, node_at};
use sparse_model::NodeKind;

// The function whose name the node is.
fn function_of<J: ControlFacts>(unit: &Unit, facts: &J, handle: Handle) -> Option<FunctionNote>
    requires { unit.now.first ≡ 0 }
    ensures { result ≡ function_of_kind (J.known facts.now) (nodes_of unit.now) handle (meaning.kind_at (nodes_of unit.now) handle) }
{
    let node = node_at(unit, handle)?;
    match node.kind {
        NodeKind::Name => facts.function_at(node.number),
        _ => None,
    }
}

/// What is known of the function that a node names, in parentheses or not.
pub fn named_function<J: ControlFacts>(
    unit: &Unit,
    facts: &J,
    handle: Handle,
) -> Option<FunctionNote>
    requires { unit.now.first ≡ 0 }
    ensures { result ≡ option_map (function_note (J.known facts.now)) (named_at (judged_unit unit.now (J.known facts.now)) handle) }
{
    unit.each_node_stands_for_one_tree();
    let mut inside = handle;
    'parentheses: while let NodeKind::Parenthesized = kind_at(unit, inside) {
        inside = child_at(unit, inside, 0);
    }
    function_of(unit, facts, inside)
}
