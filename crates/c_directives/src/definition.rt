//! The line of a `#define` (C11 6.10.3): a name, and what it stands for. The table that keeps it isn't known
//! here.
ghost use Rattle.std.specs.Prelude.{◌≡◌, All, option_map, IfOk, IfSome};
ghost use Rattle.meaning_macros.specs.WellFormed.{IsWellFormed};
ghost use Rattle.meaning_preprocessing.specs.DefinitionLines.{definition_behind, is_reserved_name, macro_behind, macro_with_list, parameters_behind};
ghost use Rattle.c_tokens.specs.Seen.{IsKnown, toks_of};
ghost use Rattle.c_macros.specs.Seen.{IsKnownMacro, by_ids, macro_of};
ghost use Rattle.c_directives.specs.Definitions.{IsDefinition};
ghost use Rattle.c_directives.specs.Made.{AreMadeWords};

use crate::bodies::can_be_defined;
use crate::fault::LineFault;
use crate::made::MadeWords;
use crate::parameters::read_list;
use c_macros::{Macro, ids_say_what_spellings_say};
use c_tokens::{Names, Token, TokenList};
use meaning_preprocessing::definitions_are_well_formed;
use sparse_model::{ErrorKind, NameId, NameList, TokenKind};
use std::alloc::{AllocError, Global};

/// The macro that the tokens behind `define` define, with its name. It takes time in their number alone.
///
/// # Errors
/// `MalformedDirective` where no name stands first, else `BadMacroDefinition` where that name can't be defined
/// so.
pub(crate) fn read_definition(
    alloc: Global,
    names: &Names,
    made: MadeWords,
    line: &[Token],
) -> Result<(NameId, Macro), LineFault>
    requires known { All (λ token. IsKnown names.now token.name) line.now }
    requires made { AreMadeWords names.now made }
    ensures definition { IsDefinition names.now (definition_behind (toks_of names.now line.now)) result }
    ensures name { IfOk result (λ found. IsKnown names.now found.0) }
    ensures known { IfOk result (λ found. IsKnownMacro names.now found.1) }
    ensures formed { IfOk result (λ found. IsWellFormed (by_ids found.1)) }
{
    let Some((name, behind)) = line.split_first() else {
        return Err(LineFault::Refused(ErrorKind::MalformedDirective, None));
    };
    if name.kind != TokenKind::Identifier {
        return Err(LineFault::Refused(ErrorKind::MalformedDirective, None));
    }
    let Some(m) = read_macro(alloc, names, made, behind)? else {
        return Err(LineFault::Refused(ErrorKind::BadMacroDefinition, None));
    };
    let can = can_be_defined(alloc, names, &m)?;
    if !can || is_reserved_name(names.spelling(name.name)) {
        return Err(LineFault::Refused(ErrorKind::BadMacroDefinition, None));
    }
    names.apart();
    definitions_are_well_formed();
    ids_say_what_spellings_say();
    Ok((name.name, m))
}

// `defined` and `__VA_ARGS__` name no macros (6.10.8 p4, 6.10.3 p5).
fn is_reserved_name(name: &[u8]) -> bool
    ensures { result ≡ is_reserved_name name.now }
{
    name == b"defined".as_slice() || name == b"__VA_ARGS__".as_slice()
}

// The macro that stands behind a name, if there is one. A `(` opens a parameter list where no white space is
// before it (6.10.3 p10).
fn read_macro(
    alloc: Global,
    names: &Names,
    made: MadeWords,
    behind: &[Token],
) -> Result<Option<Macro>, AllocError>
    requires known { All (λ token. IsKnown names.now token.name) behind.now }
    requires made { AreMadeWords names.now made }
    ensures found { IfOk result (λ found. option_map (macro_of names.now) found ≡ macro_behind (toks_of names.now behind.now)) }
    ensures known { IfOk result (λ found. IfSome found (IsKnownMacro names.now)) }
{
    if let Some((first, others)) = behind.split_first() {
        if first.kind == TokenKind::LeftParenthesis && !first.space_before {
            return read_call(alloc, names, made, others);
        }
    }
    let body = TokenList::from_vec(Vec::from_slice(alloc, behind)?);
    Ok(Some(Macro {
        params: None,
        variadic: false,
        body,
    }))
}

// The macro behind a name and a `(`.
fn read_call(
    alloc: Global,
    names: &Names,
    made: MadeWords,
    behind: &[Token],
) -> Result<Option<Macro>, AllocError>
    requires known { All (λ token. IsKnown names.now token.name) behind.now }
    requires made { AreMadeWords names.now made }
    ensures found { IfOk result (λ found. option_map (macro_of names.now) found ≡ option_map macro_with_list (parameters_behind (toks_of names.now behind.now))) }
    ensures known { IfOk result (λ found. IfSome found (IsKnownMacro names.now)) }
{
    let Some(list) = read_list(alloc, names, made, behind)? else {
        return Ok(None);
    };
    let body = TokenList::from_vec(Vec::from_slice(alloc, list.body)?);
    Ok(Some(Macro {
        params: Some(NameList::from_vec(list.names)),
        variadic: list.variadic,
        body,
    }))
}
