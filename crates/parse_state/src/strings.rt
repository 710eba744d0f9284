// The string literals of a list, each the name of a tree. A list arrives, and the length of the joined text leaves, or the
// first bad one. The bytes aren't kept here.
ghost use Rattle.std.specs.Prelude.{◌≡◌, ◌+◌, ◌<◌, IfErr, IfOk, None, OnOk, option_map, reverse, slice_get, true};
ghost use Rattle.std.specs.List.{list_all};
ghost use Rattle.meaning_literals.specs.Quoted.{string_of};
ghost use Rattle.meaning_tree.specs.Listed.{parts_at, tree_at};
ghost use Rattle.meaning_tree.specs.Nodes.{end_of};
ghost use Rattle.meaning_derivation.specs.Literals.{bad_piece, first_bad, piece_length, pieces_length};
ghost use Rattle.meaning_derivation.specs.Values.{TreeValue, name_of};
ghost use Rattle.parse_state.specs.Asking.{list_in};
ghost use Rattle.parse_state.specs.Giving.{is_below};
ghost use Rattle.parse_state.specs.Seen.{spelled_trees};
ghost use Rattle.parse_state.specs.Soundness.{is_known};
ghost use Rattle.parse_state.specs.Strings.{IsOfBad};

use crate::children::value_at;
use crate::fault::{ActionFault, fault_of_literal};
use crate::state::ParseState;
use crate::value::Value;
use c_literals::read_string;
use c_tokens::Names;
use c_tree::{Handle, Unit};
use std::alloc::{AllocError, Global};
use tag_list::TagList;

impl<'t> ParseState<'t> {
    ghost use Rattle.std.specs.Prelude.{◌≡◌, IfErr, IfOk, None, OnOk};
    ghost use Rattle.meaning_derivation.specs.Literals.{bad_piece, pieces_length};
    ghost use Rattle.meaning_derivation.specs.Values.{parts_of, value_at as value_below};
    ghost use Rattle.parse_state.specs.Seen.{state_of};
    ghost use Rattle.parse_state.specs.Strings.{IsOfBad};

    /// How many bytes the string literals of a list have together, without their last zeros (C11 6.4.5). More than a number of
    /// 64 bits can count are want of memory.
    ///
    /// Each literal is read once.
    ///
    /// # Errors
    /// `Refused` for the first literal that has no value, at its token.
    pub fn string_length(&self, depth: usize) -> Result<u64, ActionFault>
        ensures length { IfOk result (λ length. length ≡ pieces_length (parts_of (value_below (state_of self.now).values depth))) }
        ensures good { OnOk result (bad_piece (parts_of (value_below (state_of self.now).values depth)) ≡ None) }
        ensures bad { IfErr result (IsOfBad (bad_piece (parts_of (value_below (state_of self.now).values depth)))) }
    {
        self.names.apart();
        match list_at(&self.values, depth) {
            Some(pieces) => literals_length(self.alloc, self.names, &self.unit, pieces),
            None => Ok(0),
        }
    }
}

// The list so far below the top.
fn list_at(values: &[Value], depth: usize) -> Option<&TagList>
    ensures { option_map (λ list. list.now) result ≡ list_in (slice_get (reverse values.now) depth) }
{
    match value_at(values, depth) {
        Some(Value::List(list)) => Some(list),
        _ => None,
    }
}

// How many bytes the names of these nodes have as string literals, or the first that has no value.
fn literals_length(
    alloc: Global,
    names: &Names,
    unit: &Unit,
    pieces: &TagList,
) -> Result<u64, ActionFault>
    requires first { unit.now.first ≡ 0 }
    requires below { list_all (is_below (end_of unit.now)) pieces.now ≡ true }
    requires known { list_all (λ node. is_known names.now node.name) unit.now.nodes ≡ true }
    ensures length { IfOk result (λ length. length ≡ pieces_length (parts_at (spelled_trees names.now unit.now) pieces.now)) }
    ensures good { OnOk result (bad_piece (parts_at (spelled_trees names.now unit.now) pieces.now) ≡ None) }
    ensures bad { IfErr result (IsOfBad (bad_piece (parts_at (spelled_trees names.now unit.now) pieces.now))) }
{
    unit.each_node_stands_for_one_tree();
    let mut length = 0;
    for (piece, _) in pieces.iter() {
        let text = node_spelling(names, unit, piece);
        let bytes = literal_length(alloc, text, unit.token(piece))?;
        length = sum(length, bytes)?;
    }
    Ok(length)
}

fn sum(length: u64, bytes: u64) -> Result<u64, AllocError>
    ensures { IfOk result (λ sum. sum ≡ length + bytes) }
{
    match length.checked_add(bytes) {
        Some(sum) => Ok(sum),
        None => Err(AllocError),
    }
}

// How the name of a node is spelled.
fn node_spelling<'n>(names: &'n Names, unit: &Unit, handle: Handle) -> &'n [u8]
    requires first { unit.now.first ≡ 0 }
    requires below { handle < end_of unit.now }
    requires known { list_all (λ node. is_known names.now node.name) unit.now.nodes ≡ true }
    ensures { result.now ≡ name_of (TreeValue (tree_at (spelled_trees names.now unit.now) handle)) }
{
    unit.each_node_stands_for_one_tree();
    names.spelling(unit.node(handle).name)
}

// How many bytes the string literal at this token has, if it has a value.
fn literal_length(alloc: Global, text: &[u8], token: u32) -> Result<u64, ActionFault>
    ensures length { IfOk result (λ length. length ≡ piece_length (string_of text.now)) }
    ensures good { OnOk result (first_bad (string_of text.now) token None ≡ None) }
    ensures bad { IfErr result (IsOfBad (first_bad (string_of text.now) token None)) }
{
    match read_string(alloc, text) {
        Ok(bytes) => Ok(bytes.len() as u64),
        Err(fault) => Err(fault_of_literal(fault, token)),
    }
}
