//! What is asked of a macro before it is defined (C11 6.10.3 p5, p6, 6.10.3.2 p1, 6.10.3.3 p1).
ghost use Rattle.std.specs.Prelude.{◌≡◌, ◌++◌, ◌∷◌, ◌&&◌, ◌||◌, not, [], All, List, ℕ, is_some, map, IfOk, IfSome, MatchOption};
ghost use Rattle.std.specs.List.{list_any};
ghost use Rattle.std.specs.Str.{bytes_eq};
ghost use Rattle.meaning_text.specs.Tokens.{is_hash};
ghost use Rattle.meaning_macros.specs.Signs.{is_hash_hash};
ghost use Rattle.meaning_macros.specs.Bodies.{number_of_name, parameter_of};
ghost use Rattle.meaning_macros.specs.WellFormed.{are_different, begins_with_paste, ends_with_paste, hashes_are_followed};
ghost use Rattle.meaning_preprocessing.specs.DefinitionLines.{can_be_defined, has_rest_name_rightly, is_spelled, rest_name};
ghost use Rattle.c_tokens.specs.declared.token.Token.{Token as Tok};
ghost use Rattle.c_tokens.specs.Seen.{IsKnown, text_of, tok_of, toks_of};
ghost use Rattle.c_macros.specs.Parameters.{params_in};
ghost use Rattle.c_macros.specs.Seen.{IsKnownMacro, macro_of};
ghost use Rattle.c_directives.specs.Definitions.{begins_with_parameter, is_body_right};

use c_macros::Macro;
use c_tokens::{Names, Token};
use indexmap::IndexSet;
use sparse_model::{NameId, TokenKind};
use std::alloc::{AllocError, Global};

/// Whether the macro is one that can be defined. It takes time in the macro's size alone.
pub(crate) fn can_be_defined(alloc: Global, names: &Names, m: &Macro) -> Result<bool, AllocError>
    requires { IsKnownMacro names.now m.now }
    ensures { IfOk result (λ can. can ≡ can_be_defined (macro_of names.now m.now)) }
{
    let params = params_of(m);
    let body = m.body.as_slice();
    let Some(set) = parameter_set(alloc, names, params)? else {
        return Ok(false);
    };
    if !is_body_right(names, m.params.is_some(), &set, body) {
        return Ok(false);
    }
    Ok(has_rest_rightly(names, params, body))
}

// `#` and `##` stand rightly in the body.
fn is_body_right(names: &Names, called: bool, params: &IndexSet<NameId>, body: &[Token]) -> bool
    requires params { All (IsKnown names.now) params.now.keys }
    requires body { All (λ token. IsKnown names.now token.name) body.now }
    ensures { result ≡ is_body_right called (map (text_of names.now) params.now.keys) (toks_of names.now body.now) }
{
    !begins_with_paste(body)
        && !ends_with_paste(body)
        && (!called || hashes_are_followed(names, params, body))
}

// `__VA_ARGS__` stands in the body only where `...` is a parameter.
fn has_rest_rightly(names: &Names, params: &[NameId], body: &[Token]) -> bool
    requires params { All (IsKnown names.now) params.now }
    requires body { All (λ token. IsKnown names.now token.name) body.now }
    ensures { result ≡ (list_any (bytes_eq rest_name) (map (text_of names.now) params.now) || not (list_any (is_spelled rest_name) (toks_of names.now body.now))) }
{
    has_rest(names, params) || !uses_rest(names, body)
}

// The names of the parameters. An object-like macro has none.
fn params_of(m: &Macro) -> &[NameId]
    ensures { result.now ≡ params_in m.now.params }
{
    match &m.params {
        Some(names) => names.as_slice(),
        None => &[],
    }
}

// The set of the names, if none stands twice.
fn parameter_set(
    alloc: Global,
    names: &Names,
    params: &[NameId],
) -> Result<Option<IndexSet<NameId>>, AllocError>
    requires { All (IsKnown names.now) params.now }
    ensures different { IfOk result (λ found. is_some found ≡ are_different (map (text_of names.now) params.now)) }
    ensures keys { IfOk result (λ found. IfSome found (λ set. set.keys ≡ params.now)) }
{
    names.apart();
    let mut set = IndexSet::new(alloc);
    let mut left = params;
    while let Some((name, others)) = left.split_first() {
        let added = set.insert(*name)?;
        if !added {
            return Ok(None);
        }
        left = others;
    }
    Ok(Some(set))
}

fn begins_with_paste(body: &[Token]) -> bool
    ensures { (names : List (List ℕ)) → result ≡ begins_with_paste (toks_of names body.now) }
{
    match body.split_first() {
        Some((token, _)) => is_paste(token.kind),
        None => false,
    }
}

fn ends_with_paste(body: &[Token]) -> bool
    ensures { (names : List (List ℕ)) → result ≡ ends_with_paste (toks_of names body.now) }
{
    match last_token(body) {
        Some(token) => is_paste(token.kind),
        None => false,
    }
}

fn is_paste(kind: TokenKind) -> bool
    ensures { result ≡ is_hash_hash kind }
{
    matches!(kind, TokenKind::HashHash)
}

fn last_token(tokens: &[Token]) -> Option<Token>
    ensures { MatchOption result
        (tokens.now ≡ [])
        (λ token. (others : List Tok) × (tokens.now ≡ others ++ token ∷ [])) }
{
    match tokens.last() {
        Some(&token) => Some(token),
        None => None,
    }
}

// A parameter stands behind each `#`.
fn hashes_are_followed(names: &Names, params: &IndexSet<NameId>, body: &[Token]) -> bool
    requires params { All (IsKnown names.now) params.now.keys }
    requires body { All (λ token. IsKnown names.now token.name) body.now }
    ensures { result ≡ hashes_are_followed (map (text_of names.now) params.now.keys) (toks_of names.now body.now) }
{
    let mut left = body;
    while let Some((token, others)) = left.split_first() {
        if is_unfollowed(names, params, token, others) {
            return false;
        }
        left = others;
    }
    true
}

// The token is a `#`, and no parameter follows.
fn is_unfollowed(names: &Names, params: &IndexSet<NameId>, token: &Token, others: &[Token]) -> bool
    requires params { All (IsKnown names.now) params.now.keys }
    requires others { All (λ token. IsKnown names.now token.name) others.now }
    ensures { result ≡ (is_hash token.now.kind && not (begins_with_parameter (map (text_of names.now) params.now.keys) (toks_of names.now others.now))) }
{
    token.kind == TokenKind::Hash && !begins_with_parameter(names, params, others)
}

fn begins_with_parameter(names: &Names, params: &IndexSet<NameId>, tokens: &[Token]) -> bool
    requires params { All (IsKnown names.now) params.now.keys }
    requires tokens { All (λ token. IsKnown names.now token.name) tokens.now }
    ensures { result ≡ begins_with_parameter (map (text_of names.now) params.now.keys) (toks_of names.now tokens.now) }
{
    match tokens.split_first() {
        Some((token, _)) => is_parameter(names, params, token),
        None => false,
    }
}

fn is_parameter(names: &Names, params: &IndexSet<NameId>, token: &Token) -> bool
    requires params { All (IsKnown names.now) params.now.keys }
    requires token { IsKnown names.now token.now.name }
    ensures { result ≡ is_some (parameter_of (map (text_of names.now) params.now.keys) (tok_of names.now token.now)) }
{
    match token.kind {
        TokenKind::Identifier => is_among(names, params, token.name),
        _ => false,
    }
}

fn is_among(names: &Names, params: &IndexSet<NameId>, name: NameId) -> bool
    requires params { All (IsKnown names.now) params.now.keys }
    requires name { IsKnown names.now name }
    ensures { result ≡ is_some (number_of_name (text_of names.now name) (map (text_of names.now) params.now.keys)) }
{
    names.apart();
    params.contains(&name)
}

// `...` is one of the parameters.
fn has_rest(names: &Names, params: &[NameId]) -> bool
    requires { All (IsKnown names.now) params.now }
    ensures { result ≡ list_any (bytes_eq rest_name) (map (text_of names.now) params.now) }
{
    let mut left = params;
    while let Some((name, others)) = left.split_first() {
        if is_rest(names, *name) {
            return true;
        }
        left = others;
    }
    false
}

// The body has `__VA_ARGS__`.
fn uses_rest(names: &Names, body: &[Token]) -> bool
    requires { All (λ token. IsKnown names.now token.name) body.now }
    ensures { result ≡ list_any (is_spelled rest_name) (toks_of names.now body.now) }
{
    let mut left = body;
    while let Some((token, others)) = left.split_first() {
        if spells_rest(names, token) {
            return true;
        }
        left = others;
    }
    false
}

fn is_rest(names: &Names, name: NameId) -> bool
    requires { IsKnown names.now name }
    ensures { result ≡ bytes_eq rest_name (text_of names.now name) }
{
    b"__VA_ARGS__".as_slice() == names.spelling(name)
}

fn spells_rest(names: &Names, token: &Token) -> bool
    requires { IsKnown names.now token.now.name }
    ensures { result ≡ is_spelled rest_name (tok_of names.now token.now) }
{
    names.spelling(token.name) == b"__VA_ARGS__".as_slice()
}
