//! The parameter list of a `#define`: names, and at the end `...` or `name...` (C11 6.10.3 p10). Whether a
//! name stands twice isn't known here.
ghost use Rattle.std.specs.Prelude.{◌≡◌, ◌<◌, All, List, ℕ, length, option_map, IfOk, IfSome};
ghost use Rattle.meaning_macros.specs.Signs.{is_comma};
ghost use Rattle.meaning_preprocessing.specs.DefinitionLines.{is_ellipsis_kind, is_parameter_name, last_parameter, parameters_behind, parameters_from};
ghost use Rattle.c_tokens.specs.Seen.{IsKnown, text_of, tok_of, toks_of};
ghost use Rattle.c_directives.specs.Definitions.{IsKnownList, IsKnownParameter, behind_parameter, list_seen, parameter_seen};
ghost use Rattle.c_directives.specs.Made.{AreMadeWords};

use crate::made::MadeWords;
use c_tokens::{Names, Token};
use sparse_model::{NameId, TokenKind};
use std::alloc::{AllocError, Global};

/// A parameter list, and the body behind its `)`.
#[derive(Drop)]
pub(crate) struct ParameterList<'t> {
    pub(crate) names: Vec<NameId>,
    /// The last parameter takes the rest of the arguments.
    pub(crate) variadic: bool,
    pub(crate) body: &'t [Token],
}

/// A parameter at the front of the tokens.
#[derive(Clone, Copy, Debug, PartialEq, Eq)]
pub(crate) enum Parameter<'t> {
    /// More stand behind its comma.
    Followed {
        name: NameId,
        behind: &'t [Token],
    },
    /// The body stands behind its `)`.
    Last {
        name: NameId,
        variadic: bool,
        body: &'t [Token],
    },
}

/// The parameter list behind its `(`, if there is one. It takes time in its length alone.
pub(crate) fn read_list<'t>(
    alloc: Global,
    names: &Names,
    made: MadeWords,
    tokens: &'t [Token],
) -> Result<Option<ParameterList<'t>>, AllocError>
    requires known { All (λ token. IsKnown names.now token.name) tokens.now }
    requires made { AreMadeWords names.now made }
    ensures list { IfOk result (λ found. option_map (list_seen names.now) found ≡ parameters_behind (toks_of names.now tokens.now)) }
    ensures known { IfOk result (λ found. IfSome found (IsKnownList names.now)) }
{
    if let Some((first, body)) = tokens.split_first() {
        if first.kind == TokenKind::RightParenthesis {
            return Ok(Some(ParameterList {
                names: Vec::new(alloc),
                variadic: false,
                body,
            }));
        }
    }
    read_parameters(alloc, names, made, tokens)
}

// One parameter or more.
fn read_parameters<'t>(
    alloc: Global,
    names: &Names,
    made: MadeWords,
    tokens: &'t [Token],
) -> Result<Option<ParameterList<'t>>, AllocError>
    requires known { All (λ token. IsKnown names.now token.name) tokens.now }
    requires made { AreMadeWords names.now made }
    ensures list { IfOk result (λ found. option_map (list_seen names.now) found ≡ parameters_from (toks_of names.now tokens.now)) }
    ensures known { IfOk result (λ found. IfSome found (IsKnownList names.now)) }
{
    let mut found = Vec::new(alloc);
    let mut left = tokens;
    while let Some(parameter) = read_parameter(names, made, left) {
        match parameter {
            Parameter::Followed { name, behind } => {
                found.push(name)?;
                left = behind;
            }
            Parameter::Last {
                name,
                variadic,
                body,
            } => {
                found.push(name)?;
                return Ok(Some(ParameterList {
                    names: found,
                    variadic,
                    body,
                }));
            }
        }
    }
    Ok(None)
}

// The parameter at the front, if the tokens go on as a parameter list does.
fn read_parameter<'t>(names: &Names, made: MadeWords, tokens: &'t [Token]) -> Option<Parameter<'t>>
    requires known { All (λ token. IsKnown names.now token.name) tokens.now }
    requires made { AreMadeWords names.now made }
    ensures parameter { parameter_seen names.now result ≡ parameters_from (toks_of names.now tokens.now) }
    ensures known { IfSome result (IsKnownParameter names.now) }
    ensures shorter { IfSome result (λ parameter. length (behind_parameter parameter) < length tokens.now) }
{
    let (first, others) = tokens.split_first()?;
    let (second, behind) = others.split_first()?;
    if is_ellipsis(first.kind) {
        return last_parameter(made.rest, true, others);
    }
    if !is_parameter_name(names, first) {
        return None;
    }
    if is_ellipsis(second.kind) {
        return last_parameter(first.name, true, behind);
    }
    if is_comma(second.kind) {
        return Some(Parameter::Followed {
            name: first.name,
            behind,
        });
    }
    last_parameter(first.name, false, others)
}

// The last parameter has this name, if `)` is behind it.
fn last_parameter(name: NameId, variadic: bool, tokens: &[Token]) -> Option<Parameter<'_>>
    ensures parameter { (names : List (List ℕ)) → parameter_seen names result ≡ last_parameter variadic (text_of names name) (toks_of names tokens.now) }
    ensures known { (names : List (List ℕ)) → IsKnown names name → All (λ token. IsKnown names token.name) tokens.now → IfSome result (IsKnownParameter names) }
    ensures shorter { IfSome result (λ parameter. length (behind_parameter parameter) < length tokens.now) }
{
    let (first, body) = tokens.split_first()?;
    if first.kind == TokenKind::RightParenthesis {
        Some(Parameter::Last {
            name,
            variadic,
            body,
        })
    } else {
        None
    }
}

fn is_ellipsis(kind: TokenKind) -> bool
    ensures { result ≡ is_ellipsis_kind kind }
{
    matches!(kind, TokenKind::Ellipsis)
}

fn is_comma(kind: TokenKind) -> bool
    ensures { result ≡ is_comma kind }
{
    matches!(kind, TokenKind::Comma)
}

// An identifier but `__VA_ARGS__` (6.10.3 p5).
fn is_parameter_name(names: &Names, token: &Token) -> bool
    requires { IsKnown names.now token.now.name }
    ensures { result ≡ is_parameter_name (tok_of names.now token.now) }
{
    token.kind == TokenKind::Identifier
        && !(names.spelling(token.name) == b"__VA_ARGS__".as_slice())
}
