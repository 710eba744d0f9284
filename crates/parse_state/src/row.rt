// Nodes that are made of the last values alone. A row arrives, and one value leaves in the place of those that it takes. Which
// action has it isn't known here.
use crate::fault::ActionFault;
use crate::shape::{Shape, Source};
use crate::state::ParseState;
use vocabulary::NodeKind;

/// Where a node stands.
#[derive(Clone, Copy, Debug, PartialEq, Eq)]
pub enum Place {
    /// At the first token of the unit.
    AtFirst,
    /// At the word so far below the top.
    AtWord(usize),
    /// Where the tree so far below the top stands.
    AtTree(usize),
}

/// A node that is made of the last values, each told by how far it stands below the top.
#[derive(Clone, Copy, Debug, PartialEq, Eq)]
pub struct Row<'s> {
    /// How many values it is made of.
    pub takes: usize,
    pub kind: NodeKind,
    pub place: Place,
    /// The word whose spelling is its name.
    pub name: Option<usize>,
    /// The word whose token is its number.
    pub number: Option<usize>,
    /// Where its parts come from, in their order: each tree and each list among the values is one of them, the deepest first.
    pub sources: &'s [Source],
}

impl<'t> ParseState<'t> {
    ghost use Rattle.std.specs.Prelude.{◌≡◌, IfErr, OnOk};
    ghost use Rattle.meaning_derivation.specs.State.{Goes, made};
    ghost use Rattle.meaning_derivation.specs.Shapes.{number_at, shaped_tree, token_at};
    ghost use Rattle.parse_state.specs.Steps.{IsToldBy};
    ghost use Rattle.parse_state.specs.Seen.{state_of};
    ghost use Rattle.parse_state.specs.Sources.{IsCovered, place_of, row_shape};

    // The index of the token of a place.
    fn place_token(&self, place: Place) -> u32
        ensures { result ≡ token_at (place_of place) (state_of self.now).values }
    {
        match place {
            Place::AtFirst => 0,
            Place::AtWord(depth) => self.token(depth),
            Place::AtTree(depth) => self.stands_at(depth),
        }
    }

    // The index of the token of a word, or 0.
    fn word_number(&self, depth: Option<usize>) -> u64
        ensures { result ≡ number_at depth (state_of self.now).values }
    {
        match depth {
            Some(depth) => u64::from(self.token(depth)),
            None => 0,
        }
    }

    /// Makes the node of a row, as [`ParseState::make`] does.
    pub fn make_row(&mut self, row: &Row<'_>) -> Result<(), ActionFault>
        requires covers { IsCovered (state_of self.old).values row.now.takes row.now.sources.now }
        ensures goes { OnOk result (made (state_of self.old) row.now.takes (shaped_tree (row_shape row.now) (state_of self.old).values) ≡ Goes (state_of self.new)) }
        ensures told { IfErr result (IsToldBy (made (state_of self.old) row.now.takes (shaped_tree (row_shape row.now) (state_of self.old).values))) }
        ensures names { self.new.names ≡ self.old.names }
    {
        let token = self.place_token(row.place);
        let number = self.word_number(row.number);
        self.make(&Shape {
            takes: row.takes,
            kind: row.kind,
            token,
            name: row.name,
            number,
            sources: row.sources,
        })
    }
}
