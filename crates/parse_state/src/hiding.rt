// What a name hides (C11 6.2.1 p4), as the number of the tree that declares it. A name arrives, and its number leaves, or the tree on
// top with one. Whether the name may be declared isn't known here.
ghost use Rattle.std.specs.Prelude.{◌≡◌, reverse, slice_get};
ghost use Rattle.parse_state.specs.Declaring.{told_hidden, top_in};

use crate::children::value_at;
use crate::state::ParseState;
use crate::unwrapping::only_child;
use crate::value::Value;
use c_scope::{Bound, NameSpace};
use c_tree::Handle;
use sparse_model::NameId;

// The handle of what a look-up told and one, if an outer scope has it, or 0.
fn hidden_of(found: Option<(Handle, Bound, bool)>) -> u64
    ensures { result ≡ told_hidden found }
{
    match found {
        Some((declaration, _, false)) => u64::from(declaration) + 1,
        _ => 0,
    }
}

// The tree on top, or the only one of the list there.
fn top_tree(values: &[Value]) -> Option<Handle>
    ensures { result ≡ top_in (slice_get (reverse values.now) 0) }
{
    match value_at(values, 0) {
        Some(Value::Tree(handle)) => Some(*handle),
        Some(Value::List(children)) => only_child(children),
        _ => None,
    }
}

impl<'t> ParseState<'t> {
    ghost use Rattle.std.specs.Prelude.{◌≡◌};
    ghost use Rattle.vocabulary.specs.declared.scope.NameSpace.TheVariants.{Ordinary};
    ghost use Rattle.meaning_derivation.specs.Values.{value_at as value_below};
    ghost use Rattle.meaning_derivation.specs.Scoping.{found_name, hidden_number, top_numbered};
    ghost use Rattle.c_tokens.specs.Seen.{IsKnown, text_of};
    ghost use Rattle.parse_state.specs.Seen.{state_of};

    /// What a name hides that is declared in the innermost scope: the handle of what declares it in an outer one and one, or 0.
    pub fn hidden_number(&self, name: NameId) -> u64
        requires { IsKnown self.now.names name }
        ensures { result ≡ hidden_number (found_name (state_of self.now) Ordinary (text_of self.now.names name)) }
    {
        self.names.apart();
        hidden_of(self.scopes.find(NameSpace::Ordinary, name))
    }

    /// Gives the tree on top, or the only one of the list there, this number.
    pub fn number_top(&mut self, number: u64)
        ensures state { state_of self.new ≡ top_numbered (state_of self.old) number (value_below (state_of self.old).values 0) }
        ensures names { self.new.names ≡ self.old.names }
    {
        self.unit.each_node_stands_for_one_tree();
        match top_tree(&self.values) {
            Some(tree) => self.unit.set_number(tree, number),
            None => {}
        }
    }
}
