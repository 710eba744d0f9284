// When a second definition of a name is no other one. Equal ids are equal spellings here.
ghost use Rattle.std.specs.Prelude.{◌≡◌, map};
ghost use Rattle.meaning_macros.specs.Agreement.{agree, same_names, same_parameters, same_tokens};
ghost use Rattle.meaning_macros.specs.Macros.{without_first_space};
ghost use Rattle.c_macros.specs.Seen.{by_ids, own_text, token_by, params_by};

use crate::definition::Macro;
use c_tokens::Token;
use sparse_model::{NameId, NameList};

/// Whether a definition of the same name is no other one (C11 6.10.3 p1, p2).
pub(crate) fn agrees(old: &Macro, new: &Macro) -> bool
    ensures { result ≡ agree (by_ids old.now) (by_ids new.now) }
{
    parameters_agree(&old.params, &new.params)
        && old.variadic == new.variadic
        && bodies_agree(old.body.as_slice(), new.body.as_slice())
}

fn parameters_agree(old: &Option<NameList>, new: &Option<NameList>) -> bool
    ensures { result ≡ same_parameters (params_by own_text old.now) (params_by own_text new.now) }
{
    match (old, new) {
        (Some(names), Some(others)) => names_agree(names.as_slice(), others.as_slice()),
        (None, None) => true,
        _ => false,
    }
}

fn names_agree(old: &[NameId], new: &[NameId]) -> bool
    ensures { result ≡ same_names (map own_text old.now) (map own_text new.now) }
{
    let (mut names, mut others) = (old, new);
    while let (Some((name, more)), Some((other, rest))) = (
        names.split_first(),
        others.split_first(),
    ) {
        if name.0 != other.0 {
            return false;
        }
        (names, others) = (more, rest);
    }
    names.is_empty() && others.is_empty()
}

// White space before a body is no part of it (6.10.3 p7).
fn bodies_agree(old: &[Token], new: &[Token]) -> bool
    ensures { result ≡ same_tokens (without_first_space (map (token_by own_text) old.now)) (without_first_space (map (token_by own_text) new.now)) }
{
    match (old.split_first(), new.split_first()) {
        (Some((first, rest)), Some((other, others))) => {
            first.name.0 == other.name.0 && tokens_agree(rest, others)
        }
        (None, None) => true,
        _ => false,
    }
}

fn tokens_agree(old: &[Token], new: &[Token]) -> bool
    ensures { result ≡ same_tokens (map (token_by own_text) old.now) (map (token_by own_text) new.now) }
{
    let (mut tokens, mut others) = (old, new);
    while let (Some((token, more)), Some((other, rest))) = (
        tokens.split_first(),
        others.split_first(),
    ) {
        if token.name.0 != other.name.0 || token.space_before != other.space_before {
            return false;
        }
        (tokens, others) = (more, rest);
    }
    tokens.is_empty() && others.is_empty()
}
