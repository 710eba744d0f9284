// What is asked of the last values: by how far each stands below the top. A depth arrives, and what the value there has
// leaves. What the value is for isn't known here.
ghost use Rattle.std.specs.Prelude.{◌≡◌, drop, reverse, slice_get, take};
ghost use Rattle.parse_state.specs.Asking.{count_in, handle_in, name_in, name_in_at, token_in};

use crate::children::value_at;
use crate::state::ParseState;
use crate::value::Value;
use c_tokens::{Names, Token};
use c_tree::Handle;
use sparse_model::NameId;

/// The index of the token of a word.
pub(crate) fn token_at(values: &[Value], depth: usize) -> u32
    ensures { result ≡ token_in (slice_get (reverse values.now) depth) }
{
    match value_at(values, depth) {
        Some(Value::Word(token, _)) => *token,
        _ => 0,
    }
}

/// The spelling of a word, which is empty for a value that is none.
pub(crate) fn name_at(values: &[Value], depth: usize) -> NameId
    ensures { result ≡ name_in (slice_get (reverse values.now) depth) }
{
    match value_at(values, depth) {
        Some(Value::Word(_, name)) => *name,
        _ => NameId(0),
    }
}

/// The node of a tree.
pub(crate) fn tree_at(values: &[Value], depth: usize) -> Option<Handle>
    ensures { result ≡ handle_in (slice_get (reverse values.now) depth) }
{
    match value_at(values, depth) {
        Some(Value::Tree(handle)) => Some(*handle),
        _ => None,
    }
}

/// How many trees a list has.
pub(crate) fn count_at(values: &[Value], depth: usize) -> u32
    ensures { result ≡ count_in (slice_get (reverse values.now) depth) }
{
    match value_at(values, depth) {
        Some(Value::List(children)) => children.len(),
        _ => 0,
    }
}

// The tokens behind so many.
fn behind(toks: &[Token], count: usize) -> &[Token]
    ensures { result.now ≡ drop count toks.now }
{
    if count <= toks.len() {
        let (_, behind) = toks.split_at(count);
        behind
    } else {
        &[]
    }
}

// The first so many tokens.
fn front(toks: &[Token], count: usize) -> &[Token]
    ensures { result.now ≡ take count toks.now }
{
    if count <= toks.len() {
        let (front, _) = toks.split_at(count);
        front
    } else {
        toks
    }
}

/// The name of a node that has the spelling of a word, or none.
pub(crate) fn name_of_word(values: &[Value], depth: Option<usize>) -> NameId
    ensures { result ≡ name_in_at (reverse values.now) depth }
{
    match depth {
        Some(depth) => name_at(values, depth),
        None => NameId(0),
    }
}

impl<'t> ParseState<'t> {
    ghost use Rattle.meaning_derivation.specs.Values.{text_of, token_of, value_at as value_below};
    ghost use Rattle.meaning_derivation.specs.Lists.{has_spelling};
    ghost use Rattle.meaning_derivation.specs.Contexts.{tokens_behind};
    ghost use Rattle.meaning_derivation.specs.Attributes.{tokens_from};
    ghost use Rattle.c_tokens.specs.Seen.{toks_of};
    ghost use Rattle.parse_state.specs.Seen.{state_of};

    /// The table of spellings.
    pub fn names(&self) -> &Names
        ensures { result.now ≡ self.now.names }
    {
        self.names
    }

    /// The tokens of the unit behind that of a word.
    pub fn tokens_behind(&self, depth: usize) -> &[Token]
        ensures { toks_of self.now.names result.now ≡ tokens_behind (state_of self.now) (value_below (state_of self.now).values depth) }
    {
        let from = self.token(depth) as usize + 1;
        if from <= self.tokens.len() {
            let (_, behind) = self.tokens.split_at(from);
            behind
        } else {
            &[]
        }
    }

    /// The tokens of the unit from that of a word up to that of the next terminal.
    pub fn tokens_from(&self, depth: usize) -> &[Token]
        ensures { toks_of self.now.names result.now ≡ tokens_from (state_of self.now) (value_below (state_of self.now).values depth) }
    {
        let from = self.token(depth);
        let count = self.next_token.saturating_sub(from);
        front(behind(self.tokens, from as usize), count as usize)
    }

    /// The index of the token of a word.
    pub fn token(&self, depth: usize) -> u32
        ensures { result ≡ token_of (value_below (state_of self.now).values depth) }
    {
        token_at(&self.values, depth)
    }

    /// The spelling of a word.
    pub fn spelling(&self, depth: usize) -> &[u8]
        ensures { result.now ≡ text_of (value_below (state_of self.now).values depth) }
    {
        self.names.apart();
        self.names.spelling(name_at(&self.values, depth))
    }

    /// Whether a word has a spelling: the place of a token has none.
    pub fn has_spelling(&self, depth: usize) -> bool
        ensures { result ≡ has_spelling (value_below (state_of self.now).values depth) }
    {
        !self.spelling(depth).is_empty()
    }

    /// The index of the token that comes next, or of the last one of the unit.
    pub fn next_token(&self) -> u32
        ensures { result ≡ (state_of self.now).next_token }
    {
        self.next_token
    }

    /// How many terminals were taken.
    pub fn taken(&self) -> u32
        ensures { result ≡ (state_of self.now).taken }
    {
        self.taken
    }
}
