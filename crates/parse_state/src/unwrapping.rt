// A list that has one tree alone, as that tree. What the tree is isn't known here.
ghost use Rattle.std.specs.Prelude.{◌≡◌, ◌<◌, ◌++◌, ◌∷◌, [], OnOk, reverse, slice_get, take};
ghost use Rattle.meaning_tree.specs.Nodes.{end_of};
ghost use Rattle.parse_state.specs.declared.value.Value.TheVariants as kinds;
ghost use Rattle.parse_state.specs.Making.{start_of};
ghost use Rattle.parse_state.specs.OnlyTrees.{only_child, only_in};

use crate::children::value_at;
use crate::nodes::forget;
use crate::state::ParseState;
use crate::value::Value;
use c_tree::Handle;
use std::alloc::AllocError;
use tag_list::TagList;

/// The only child among children.
pub(crate) fn only_child(children: &TagList) -> Option<Handle>
    ensures { result ≡ only_child children.now }
{
    if children.len() == 1 {
        let (only, _) = children.get(0);
        Some(only)
    } else {
        None
    }
}

// The only child of a list.
fn only_at(values: &[Value], depth: usize) -> Option<Handle>
    ensures { result ≡ only_in (slice_get (reverse values.now) depth) }
{
    match value_at(values, depth) {
        Some(Value::List(children)) => only_child(children),
        _ => None,
    }
}

// Puts a tree in the place of the last values.
fn put_tree(values: &mut Vec<Value>, takes: usize, tree: Handle) -> Result<(), AllocError>
    ensures { OnOk result (values.new.items ≡ take (start_of values.old.items takes) values.old.items ++ kinds.Tree tree ∷ []) }
{
    values.truncate(values.len().saturating_sub(takes));
    values.push(Value::Tree(tree))?;
    Ok(())
}

impl<'t> ParseState<'t> {
    ghost use Rattle.std.specs.Prelude.{◌≡◌, IfOk, OnOk, is_some};
    ghost use Rattle.meaning_derivation.specs.Values.{parts_of, value_at as value_below};
    ghost use Rattle.parse_state.specs.Looking.{only_tree, with_only};
    ghost use Rattle.parse_state.specs.Lying.{AreWords};
    ghost use Rattle.parse_state.specs.Seen.{state_of};

    /// Puts the tree of a list that has no other one in the place of the last values, of which the list is the deepest and
    /// each other one a word, and answers whether there is one.
    ///
    /// Where memory runs out no value is left.
    pub fn keep_only_tree(&mut self, depth: usize) -> Result<bool, AllocError>
        requires { AreWords (state_of self.old).values depth }
        ensures found { IfOk result (λ found. found ≡ is_some (only_tree (parts_of (value_below (state_of self.old).values depth)))) }
        ensures state { OnOk result (state_of self.new ≡ with_only (state_of self.old) depth (only_tree (parts_of (value_below (state_of self.old).values depth)))) }
        ensures names { self.new.names ≡ self.old.names }
    {
        match only_at(&self.values, depth) {
            None => Ok(false),
            Some(tree) => {
                let put = put_tree(&mut self.values, depth + 1, tree);
                if put.is_err() {
                    forget(self.alloc, &mut self.values, &mut self.unit);
                    return Err(AllocError);
                }
                Ok(true)
            }
        }
    }
}
