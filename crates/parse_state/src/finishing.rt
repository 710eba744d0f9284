// The unit that is left where all is read. The last value arrives, and the unit leaves. What its tree says isn't known here.
use crate::state::ParseState;
use c_tree::Unit;

impl<'t> ParseState<'t> {
    ghost use Rattle.std.specs.Prelude.{◌≡◌, ◌∷◌, []};
    ghost use Rattle.meaning_tree.specs.Laid.{IsLaid};
    ghost use Rattle.meaning_grammar.specs.Sorts.{ATree};
    ghost use Rattle.meaning_derivation.specs.Values.{sorts_of};
    ghost use Rattle.parse_state.specs.Finished.{HasKnownNames, IsOnlyTreeOf, spelled};
    ghost use Rattle.parse_state.specs.Seen.{state_of};

    /// The nodes of the only tree that is left, without a copy. The tree is that of the last one.
    pub fn into_unit(self) -> Unit
        requires { sorts_of (state_of self).values ≡ ATree ∷ [] }
        ensures first { result.first ≡ 0 }
        ensures tree { IsOnlyTreeOf (spelled self.entry.names result) (state_of self.entry).values }
        ensures laid { IsLaid result }
        ensures names { HasKnownNames self.entry.names result }
    {
        self.unit.each_node_stands_for_one_tree();
        let ParseState { unit, .. } = self;
        unit
    }
}
