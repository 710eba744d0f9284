//! `defined X` and `defined ( X )` in the line of an `#if` (C11 6.10.1 p1), answered before macros are
//! replaced.
ghost use Rattle.std.specs.Prelude.{◌≡◌, List, ℕ, codes, filter, option_map, ◌∷◌, ◌++◌, IfOk, IfSome, OnOk};
ghost use Rattle.meaning_text.specs.Tokens.{Tok};
ghost use Rattle.meaning_macros.specs.Signs.{is_identifier_kind};
ghost use Rattle.meaning_macros.specs.Macros.{Definition};
ghost use Rattle.meaning_preprocessing.specs.DefinitionLines.{is_spelled};
ghost use Rattle.meaning_preprocessing.specs.ConditionLines.{Nothing, answered, truth_token};
ghost use Rattle.meaning_preprocessing.specs.ConditionLines as line;
ghost use Rattle.c_tokens.specs.Seen.{IsKnown, tok_of, toks_of};
ghost use Rattle.c_directives.specs.Conditions.{AreKnown, HasMacros, IsKnownStep, IsKnownWaiting, is_left_identifier, step_seen, waiting_seen};
ghost use Rattle.c_directives.specs.Made.{AreMadeWords};

use crate::made::MadeWords;
use crate::names_alone::is_defined;
use c_macros::MacroTable;
use c_tokens::{Names, Token};
use sparse_model::TokenKind;
use std::alloc::{AllocError, Global};

/// What a `defined` waits for.
#[derive(Clone, Copy, Debug, PartialEq, Eq)]
pub(crate) enum Waiting {
    /// There is none.
    Nothing,
    /// A name, or a `(`.
    Name(Token),
    /// The name behind `(`.
    NameWithin(Token),
    /// The `)` behind this answer.
    Closing(Token),
}

/// What a token makes of it.
#[derive(Clone, Copy, Debug, PartialEq, Eq)]
pub(crate) enum Step {
    /// This token stays or is the answer.
    Puts(Token),
    Waits(Waiting),
    /// No `defined` is spelled so.
    Breaks,
}

/// The tokens with `1` or `0` for each `defined`. None where another `defined` stands among them. It takes
/// time in their number alone.
pub(crate) fn answer_defined(
    alloc: Global,
    names: &Names,
    made: MadeWords,
    macros: &MacroTable,
    line: &[Token],
) -> Result<Option<Vec<Token>>, AllocError>
    requires known { AreKnown names.now line.now }
    requires made { AreMadeWords names.now made }
    ensures answered { IfOk result (λ found. (definitions : List Definition) → HasMacros names.now definitions macros.now →
        option_map (λ tokens. toks_of names.now tokens.items) found ≡ answered definitions Nothing (toks_of names.now line.now)) }
    ensures known { IfOk result (λ found. IfSome found (λ tokens. AreKnown names.now tokens.items)) }
{
    let mut done = Vec::new(alloc);
    let mut waiting = Waiting::Nothing;
    let mut left = line;
    'tokens: while let Some((token, others)) = left.split_first() {
        match next_step(names, made, macros, waiting, token) {
            Step::Puts(put) => {
                done.push(put)?;
                waiting = Waiting::Nothing;
                left = others;
                continue 'tokens;
            }
            Step::Waits(next) => {
                waiting = next;
                left = others;
                continue 'tokens;
            }
            Step::Breaks => return Ok(None),
        }
    }
    match waiting {
        Waiting::Nothing => Ok(Some(done)),
        _ => Ok(None),
    }
}

fn next_step(
    names: &Names,
    made: MadeWords,
    macros: &MacroTable,
    waiting: Waiting,
    token: &Token,
) -> Step
    requires token { IsKnown names.now token.now.name }
    requires waiting { IsKnownWaiting names.now waiting }
    requires made { AreMadeWords names.now made }
    ensures step { (definitions : List Definition) (ts : List Tok) → HasMacros names.now definitions macros.now →
        step_seen names.now definitions ts result ≡ answered definitions (waiting_seen names.now waiting) (tok_of names.now token.now ∷ ts) }
    ensures known { IsKnownStep names.now result }
{
    match waiting {
        Waiting::Nothing => outside(names, token),
        Waiting::Name(word) => behind_word(names, made, macros, word, token),
        Waiting::NameWithin(word) => within(names, made, macros, word, token),
        Waiting::Closing(answer) => match token.kind {
            TokenKind::RightParenthesis => Step::Puts(answer),
            _ => Step::Breaks,
        },
    }
}

// A token that no `defined` waits for.
fn outside(names: &Names, token: &Token) -> Step
    requires { IsKnown names.now token.now.name }
    ensures step { (definitions : List Definition) (ts : List Tok) → step_seen names.now definitions ts result ≡ answered definitions Nothing (tok_of names.now token.now ∷ ts) }
    ensures known { IsKnownStep names.now result }
{
    if is_defined_word(names, token) {
        Step::Waits(Waiting::Name(*token))
    } else {
        Step::Puts(*token)
    }
}

fn is_defined_word(names: &Names, token: &Token) -> bool
    requires { IsKnown names.now token.now.name }
    ensures { result ≡ is_spelled (codes "defined") (tok_of names.now token.now) }
{
    names.spelling(token.name) == b"defined".as_slice()
}

// Behind `defined`.
fn behind_word(
    names: &Names,
    made: MadeWords,
    macros: &MacroTable,
    word: Token,
    token: &Token,
) -> Step
    requires token { IsKnown names.now token.now.name }
    requires word { IsKnown names.now word.name }
    requires made { AreMadeWords names.now made }
    ensures step { (definitions : List Definition) (ts : List Tok) → HasMacros names.now definitions macros.now →
        step_seen names.now definitions ts result ≡ answered definitions (line.NameOf (tok_of names.now word)) (tok_of names.now token.now ∷ ts) }
    ensures known { IsKnownStep names.now result }
{
    match token.kind {
        TokenKind::Identifier => {
            let holds = is_defined(names, macros, token.name);
            Step::Puts(truth_token(names, made, word, holds))
        }
        TokenKind::LeftParenthesis => Step::Waits(Waiting::NameWithin(word)),
        _ => Step::Breaks,
    }
}

// Behind `defined (`.
fn within(names: &Names, made: MadeWords, macros: &MacroTable, word: Token, token: &Token) -> Step
    requires token { IsKnown names.now token.now.name }
    requires word { IsKnown names.now word.name }
    requires made { AreMadeWords names.now made }
    ensures step { (definitions : List Definition) (ts : List Tok) → HasMacros names.now definitions macros.now →
        step_seen names.now definitions ts result ≡ answered definitions (line.NameWithin (tok_of names.now word)) (tok_of names.now token.now ∷ ts) }
    ensures known { IsKnownStep names.now result }
{
    match token.kind {
        TokenKind::Identifier => {
            let holds = is_defined(names, macros, token.name);
            Step::Waits(Waiting::Closing(truth_token(names, made, word, holds)))
        }
        _ => Step::Breaks,
    }
}

// `1` or `0` at the place of a `defined`.
fn truth_token(names: &Names, made: MadeWords, word: Token, holds: bool) -> Token
    requires { AreMadeWords names.now made }
    ensures token { tok_of names.now result ≡ truth_token (tok_of names.now word) holds }
    ensures known { IsKnown names.now result.name }
{
    Token {
        kind: TokenKind::Number,
        space_before: word.space_before,
        line_start: word.line_start,
        name: if holds { made.one } else { made.zero },
        place: word.place,
    }
}

/// Keeps the identifiers that are left of a line.
pub fn keep_undefined(undefined: &mut Vec<Token>, tokens: &[Token]) -> Result<(), AllocError>
    ensures { OnOk result (undefined.new.items ≡ undefined.old.items ++ filter is_left_identifier tokens.now) }
{
    let mut left = tokens;
    'tokens: while let Some((token, others)) = left.split_first() {
        left = others;
        if is_identifier(token.kind) {
            undefined.push(*token)?;
            continue 'tokens;
        }
    }
    Ok(())
}

fn is_identifier(kind: TokenKind) -> bool
    ensures { result ≡ is_identifier_kind kind }
{
    matches!(kind, TokenKind::Identifier)
}
