// The terminals of a unit, one behind the other: its tokens arrive, and leave one by one as the grammar sees them. Which row
// takes them isn't known here.
ghost use Rattle.std.specs.Prelude.{◌≡◌, ◌+◌, ◌∷◌, [], IfOk, List, None, map};
ghost use Rattle.meaning_grammar.specs.Terminals.{reading_of, terminals_from};
ghost use Rattle.meaning_grammar.specs.Words.{word_reading};
ghost use Rattle.meaning_text.specs.Tokens.{Tok};
ghost use Rattle.c_tokens.specs.Seen.{IsKnown, text_of, tok_of};
ghost use Rattle.c_terminals.specs.Left.{AreKnown, IsKnownTerminal, in_front, terminals_at};
ghost use Rattle.c_terminals.specs.Seen.{entry_seen, reading_seen, word_entry};

use crate::kinds::{Deciding, decided_by};
use crate::literals::{character_reading, number_reading, string_reading};
use crate::reading::{Reading, of_class};
use crate::terminal::Terminal;
use crate::words::read_words;
use c_tokens::{Names, Token};
use sparse_model::NameId;
use std::alloc::{AllocError, Global};
use std::marker::Model;
use vocabulary::TokenKind;

// How a token is read, where its spelling as a word is read so.
fn reading_of(
    alloc: Global,
    names: &Names,
    word: Reading,
    token: &Token,
) -> Result<Reading, AllocError>
    requires known { IsKnown names.now token.now.name }
    requires word { reading_seen word ≡ word_reading (text_of names.now token.now.name) }
    ensures { IfOk result (λ reading. reading_seen reading ≡ reading_of token.now.kind (text_of names.now token.now.name)) }
{
    let text = names.spelling(token.name);
    match decided_by(token.kind) {
        Deciding::Spelling => Ok(word),
        Deciding::Number => Ok(number_reading(text)),
        Deciding::Character => Ok(character_reading(text)),
        Deciding::String => string_reading(alloc, text),
        Deciding::Kind(class) => Ok(of_class(class)),
    }
}

// How the spelling of an id is read where it is that of a word.
fn entry_of(names: &Names, words: &[Option<Reading>], name: NameId) -> Option<Reading>
    requires known { IsKnown names.now name }
    requires words { map entry_seen words.now ≡ map word_entry names.now }
    ensures { entry_seen result ≡ word_entry (text_of names.now name) }
{
    words[name.0 as usize]
}

// The terminal of a token, unless it is read over.
fn terminal_at(
    alloc: Global,
    names: &Names,
    words: &[Option<Reading>],
    index: u32,
    token: &Token,
) -> Result<Option<Terminal>, AllocError>
    requires known { IsKnown names.now token.now.name }
    requires words { map entry_seen words.now ≡ map word_entry names.now }
    ensures front { IfOk result (λ found. (toks : List Tok) → terminals_from index (tok_of names.now token.now ∷ toks) ≡ in_front names.now found (terminals_from (index + 1) toks)) }
    ensures known { IfOk result (IsKnownTerminal names.now) }
{
    match entry_of(names, words, token.name) {
        None => Ok(None),
        Some(word) => {
            let reading = reading_of(alloc, names, word, token)?;
            Ok(Some(Terminal {
                index,
                class: reading.class,
                name: token.name,
                refusal: reading.refusal,
            }))
        }
    }
}

// The first terminal of tokens of which the first has this index, with the index of the first token behind it, and those
// tokens.
fn first_terminal<'t>(
    alloc: Global,
    names: &Names,
    words: &[Option<Reading>],
    from: u32,
    tokens: &'t [Token],
) -> Result<(Option<Terminal>, u32, &'t [Token]), AllocError>
    requires known { AreKnown names.now tokens.now }
    requires words { map entry_seen words.now ≡ map word_entry names.now }
    ensures front { IfOk result (λ found. terminals_at names.now from tokens.now ≡ in_front names.now found.0 (terminals_at names.now found.1 found.2.now)) }
    ensures none { IfOk result (λ found. found.0 ≡ None → found.2.now ≡ []) }
    ensures known { IfOk result (λ found. IsKnownTerminal names.now found.0) }
    ensures left_known { IfOk result (λ found. AreKnown names.now found.2.now) }
{
    let mut index = from;
    let mut rest = tokens;
    'tokens: while let Some((token, others)) = rest.split_first() {
        if index == u32::MAX {
            return Err(AllocError);
        }
        let found = terminal_at(alloc, names, words, index, token)?;
        match found {
            Some(terminal) => return Ok((Some(terminal), index + 1, others)),
            None => {
                index += 1;
                rest = others;
            }
        }
    }
    Ok((None, index, rest))
}

/// The terminals that are left of a unit. Its value is the list of them, and the spellings of their ids.
#[derive(Drop)]
pub struct Terminals<'t> {
    alloc: Global,
    names: &'t Names,
    words: Vec<Option<Reading>>,
    // The tokens behind the next two terminals, and the index of the first.
    tokens: &'t [Token],
    index: u32,
    next: Option<Terminal>,
    behind: Option<Terminal>,
}

impl<'t> Model for Terminals<'t> {
    ghost use Rattle.c_terminals.specs.Left.{IsReader, Left, in_front, terminals_at};

    ghost Value = { Left };

    ghost view = { λ r. record {
      names = r.names.now;
      terminals = in_front r.names.now r.next (in_front r.names.now r.behind (terminals_at r.names.now r.index r.tokens.now));
    } };

    ghost invariant = { λ r. IsReader r.names.now r.words.items r.tokens.now r.next r.behind };
}

impl<'t> Terminals<'t> {
    ghost use Rattle.std.specs.Prelude.{◌≡◌, IfOk, IfSome, OnOk, drop, option_map, slice_get};
    ghost use Rattle.meaning_grammar.specs.Terminals.{terminals};
    ghost use Rattle.c_tokens.specs.Seen.{IsKnown, toks_of};
    ghost use Rattle.c_terminals.specs.Left.{AreKnown};
    ghost use Rattle.c_terminals.specs.Seen.{terminal_of};

    /// The terminals of the tokens of a unit.
    pub fn new(
        alloc: Global,
        names: &'t Names,
        tokens: &'t [Token],
    ) -> Result<Terminals<'t>, AllocError>
        requires { AreKnown names.now tokens.now }
        ensures names { IfOk result (λ left. left.names ≡ names.now) }
        ensures terminals { IfOk result (λ left. left.terminals ≡ terminals (toks_of names.now tokens.now)) }
    {
        let words = read_words(alloc, names)?;
        let (next, first, others) = first_terminal(alloc, names, &words, 0, tokens)?;
        let (behind, index, tokens) = first_terminal(alloc, names, &words, first, others)?;
        Ok(Terminals {
            alloc,
            names,
            words,
            tokens,
            index,
            next,
            behind,
        })
    }

    /// The next one, if one is left.
    pub fn next(&self) -> Option<Terminal>
        ensures terminal { option_map (terminal_of self.now.names) result ≡ slice_get self.now.terminals 0 }
        ensures known { IfSome result (λ terminal. IsKnown self.now.names terminal.name) }
    {
        self.next
    }

    /// The one behind it.
    pub fn behind(&self) -> Option<Terminal>
        ensures terminal { option_map (terminal_of self.now.names) result ≡ slice_get self.now.terminals 1 }
        ensures known { IfSome result (λ terminal. IsKnown self.now.names terminal.name) }
    {
        self.behind
    }

    /// The next one is behind.
    pub fn advance(&mut self) -> Result<(), AllocError>
        ensures left { OnOk result (self.new.terminals ≡ drop 1 self.old.terminals) }
        ensures names { self.new.names ≡ self.old.names }
    {
        let (found, index, tokens) = first_terminal(
            self.alloc,
            self.names,
            &self.words,
            self.index,
            self.tokens,
        )?;
        self.next = self.behind;
        self.behind = found;
        self.index = index;
        self.tokens = tokens;
        Ok(())
    }
}
