// Which nodes are those of a tree: one run of the list, which ends at the root.
ghost use Rattle.std.specs.Prelude.{◌≡◌, ◌<◌, None, length, get_or};
ghost use Rattle.meaning_tree.specs.Laid.{IsLaid};
ghost use Rattle.meaning_tree.specs.Nodes.{end_of};
ghost use Rattle.meaning_typing.specs.Evaluation.{evaluated_among};
ghost use Rattle.meaning_typing.specs.Surroundings.{evaluates};
ghost use Rattle.vocabulary.specs.Roles.{role_of};
ghost use Rattle.linear_code.specs.Run.{IsRunFrom, least_from, lesser};

use c_tree::{Handle, Unit};
use tag_list::TagList;

// The lesser of two handles, where there are two.
fn lesser(least: Option<Handle>, handle: Handle) -> Handle
    ensures { result ≡ lesser least handle }
{
    match least {
        Some(other) if other < handle => other,
        Some(_) => handle,
        None => handle,
    }
}

// The least of the children of a node.
fn least_child(children: &TagList) -> Option<Handle>
    ensures { result ≡ least_from None children.now }
{
    let mut least = None;
    for (child, _) in children.iter() {
        least = Some(lesser(least, child));
    }
    least
}

/// The first node of the tree with this root.
pub fn first_within(unit: &Unit, root: Handle) -> Handle
    requires whole { unit.now.first ≡ 0 }
    requires laid { IsLaid unit.now }
    requires root { root < end_of unit.now }
    ensures { IsRunFrom unit.now result root }
{
    unit.each_node_stands_for_one_tree();
    let mut first = root;
    'down: while let Some(least) = least_child(unit.children(first)) {
        first = least;
    }
    first
}

/// Whether the part with this tag is evaluated where the node is.
pub fn is_evaluated(tag: u8) -> bool
    ensures { result ≡ evaluates (role_of tag) }
{
    match tag {
        0 => true,
        1 => true,
        2 => false,
        _ => false,
    }
}

/// The first part of these that is evaluated, or else this handle.
pub fn first_evaluated(children: &TagList, otherwise: Handle) -> Handle
    ensures { result ≡ get_or (evaluated_among children.now) 0 otherwise }
{
    for (child, tag) in children.iter() {
        if is_evaluated(tag) {
            return child;
        }
    }
    otherwise
}
