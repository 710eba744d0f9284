// What is asked of trees and lists, and of the names that stand for something: a depth arrives, and a token, a count or a
// declaration leaves. Nothing is changed here.
use crate::asking::{count_at, name_at, tree_at};
use crate::state::ParseState;
use c_scope::{Bound, NameSpace};
use c_tree::Handle;

impl<'t> ParseState<'t> {
    ghost use Rattle.std.specs.Prelude.{◌≡◌, option_map};
    ghost use Rattle.meaning_derivation.specs.Values.{parts_of, stands_at, text_of, value_at as value_below};
    ghost use Rattle.meaning_derivation.specs.Lists.{part_count};
    ghost use Rattle.meaning_derivation.specs.Scoping.{found_name};
    ghost use Rattle.parse_state.specs.Looking.{found_told};
    ghost use Rattle.parse_state.specs.Seen.{state_of};

    /// The index of the token at which a tree stands.
    pub fn stands_at(&self, depth: usize) -> u32
        ensures { result ≡ stands_at (value_below (state_of self.now).values depth) }
    {
        self.unit.each_node_stands_for_one_tree();
        match tree_at(&self.values, depth) {
            Some(tree) => self.unit.token(tree),
            None => 0,
        }
    }

    /// How many parts a list has.
    pub fn part_count(&self, depth: usize) -> u32
        ensures { result ≡ part_count (parts_of (value_below (state_of self.now).values depth)) }
    {
        count_at(&self.values, depth)
    }

    /// What the spelling of a word stands for: the number of what declared it, as what, and whether the innermost scope itself
    /// binds it.
    pub fn find(&self, space: NameSpace, depth: usize) -> Option<(Handle, Bound, bool)>
        ensures { result ≡ option_map found_told (found_name (state_of self.now) space (text_of (value_below (state_of self.now).values depth))) }
    {
        self.names.apart();
        self.scopes.find(space, name_at(&self.values, depth))
    }
}
