// What the specifiers in a list, or of a tree, come to. Which of them may stand together is known in `specified.rt`, and not
// here.
ghost use Rattle.std.specs.Prelude.{◌≡◌, true};
ghost use Rattle.std.specs.List.{list_all};
ghost use Rattle.meaning_tree.specs.Nodes.{end_of};
ghost use Rattle.meaning_derivation.specs.Specifiers.{nothing_specified, specified_from};
ghost use Rattle.parse_state.specs.Giving.{is_below};
ghost use Rattle.parse_state.specs.Specifying.{child_kinds, specified_seen};

use crate::asking::tree_at;
use crate::declaring::list_at;
use crate::marks::HeldError;
use crate::specified::{Specified, word_of};
use crate::state::ParseState;
use c_tree::Unit;
use tag_list::TagList;
use vocabulary::ErrorKind;

// What these children come to as specifiers.
fn specified_children(unit: &Unit, children: &TagList) -> Specified
    requires first { unit.now.first ≡ 0 }
    requires below { list_all (is_below (end_of unit.now)) children.now ≡ true }
    ensures { specified_seen result ≡ specified_from nothing_specified (child_kinds unit.now children.now) }
{
    let mut specified = Specified::nothing();
    for (child, _) in children.iter() {
        specified = specified.with_word(word_of(unit.kind(child)));
    }
    specified
}

impl<'t> ParseState<'t> {
    ghost use Rattle.std.specs.Prelude.{◌≡◌};
    ghost use Rattle.meaning_derivation.specs.Values.{parts_of, value_at as value_below};
    ghost use Rattle.meaning_derivation.specs.Scoping.{parts_below};
    ghost use Rattle.meaning_derivation.specs.Specifiers.{held_where, nothing_specified, specified_by};
    ghost use Rattle.parse_state.specs.Seen.{state_of};
    ghost use Rattle.parse_state.specs.Specifying.{specified_seen};

    /// What the specifiers in a list come to.
    pub fn specified(&self, depth: usize) -> Specified
        ensures { specified_seen result ≡ specified_by (parts_of (value_below (state_of self.now).values depth)) }
    {
        self.unit.each_node_stands_for_one_tree();
        match list_at(&self.values, depth) {
            Some(parts) => specified_children(&self.unit, parts),
            None => Specified::nothing(),
        }
    }

    /// What those of a node of specifiers come to.
    pub fn specified_tree(&self, depth: usize) -> Specified
        ensures { specified_seen result ≡ specified_by (parts_below (value_below (state_of self.now).values depth)) }
    {
        self.unit.each_node_stands_for_one_tree();
        match tree_at(&self.values, depth) {
            Some(tree) => specified_children(&self.unit, self.unit.children(tree)),
            None => Specified::nothing(),
        }
    }

    /// Where the test holds, an error at this token is told when the next terminal is taken.
    pub fn hold_where(&mut self, test: bool, kind: ErrorKind, token: u32)
        ensures state { state_of self.new ≡ held_where test kind token (state_of self.old) }
        ensures names { self.new.names ≡ self.old.names }
    {
        if test {
            self.held = Some(HeldError { kind, token });
        }
    }
}
