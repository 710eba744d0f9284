// Where the first tree of a list stands. A depth arrives, and a token leaves, if there is a tree. What the tree is isn't known
// here.
ghost use Rattle.std.specs.Prelude.{◌≡◌, reverse, slice_get};
ghost use Rattle.parse_state.specs.Joining.{children_of, first_child};

use crate::children::value_at;
use crate::state::ParseState;
use crate::value::Value;
use c_tree::Handle;
use tag_list::TagList;

// The first of children.
fn first_child(children: &TagList) -> Option<Handle>
    ensures { result ≡ first_child children.now }
{
    match children.iter().next() {
        Some((first, _)) => Some(first),
        None => None,
    }
}

// The first child of a list.
fn first_child_at(values: &[Value], depth: usize) -> Option<Handle>
    ensures { result ≡ first_child (children_of (slice_get (reverse values.now) depth)) }
{
    match value_at(values, depth) {
        Some(Value::List(children)) => first_child(children),
        _ => None,
    }
}

impl<'t> ParseState<'t> {
    ghost use Rattle.std.specs.Prelude.{◌≡◌};
    ghost use Rattle.meaning_derivation.specs.Values.{parts_of, value_at as value_below};
    ghost use Rattle.meaning_derivation.specs.Lists.{first_tree_token};
    ghost use Rattle.parse_state.specs.Seen.{state_of};

    /// The index of the token at which the first tree of a list stands.
    pub fn first_tree_token(&self, depth: usize) -> u32
        ensures { result ≡ first_tree_token (parts_of (value_below (state_of self.now).values depth)) }
    {
        self.unit.each_node_stands_for_one_tree();
        match first_child_at(&self.values, depth) {
            Some(first) => self.unit.token(first),
            None => 0,
        }
    }
}
