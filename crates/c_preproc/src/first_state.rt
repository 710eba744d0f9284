//! What stands before the first line of a unit: the macros that are defined, and the files that have numbers.
ghost use Rattle.std.specs.Prelude.{◌≡◌, ◌≢◌, ◌++◌, ◌∷◌, ◌==◌, ◌||◌, [], ℕ, List, option_map, if◌then◌else◌, Some, None, IfOk, OnOk};
ghost use Rattle.meaning_macros.specs.Macros.{Definition, macro_of};
ghost use Rattle.meaning_macros.specs.Stringizing.{with_backslashes};
ghost use Rattle.meaning_macros.specs.WellFormed.{IsWellFormed};
ghost use Rattle.meaning_preprocessing.specs.DefinitionLines.{macro_without_list};
ghost use Rattle.meaning_text.specs.Bytes.{backslash, double_quote};
ghost use Rattle.meaning_preprocessing.specs.State.{spelled_path};
ghost use Rattle.meaning_preprocessing.specs.Unit as unit;
ghost use Rattle.meaning_preprocessing.specs.Unit.{first_definitions, number_body, number_definition, unit_limits};
ghost use Rattle.c_tokens.specs.Seen.{Extends, IsKnown, text_of};
ghost use Rattle.c_macros.specs.Seen.{KnowsAll};
ghost use Rattle.c_macros.specs.Seen.{IsKnownMacro, by_ids};
ghost use Rattle.c_macros.specs.Seen as seen;
ghost use Rattle.c_macros.specs.Table.{spelling_of_file};
ghost use Rattle.c_directives.specs.Conditions.{HasMacros};
ghost use Rattle.c_preproc.specs.States.{Holds};

use crate::state::State;
use c_directives::MadeWords;
use c_macros::{Budget, Macro, MacroTable};
use c_tokens::{Names, Token, TokenList};
use sparse_model::{NameId, Place, TokenKind};
use std::alloc::{AllocError, Global};

/// What a unit may use up of replacements and of made tokens.
const MOST_REPLACEMENTS: u32 = 4_000_000;

const MOST_MADE_TOKENS: u32 = 16_000_000;

/// What stands before the first line, where the file has this path.
pub(crate) fn first_state(
    alloc: Global,
    names: &mut Names,
    path: &[u8],
) -> Result<State, AllocError>
    ensures holds { IfOk result (λ state. Holds names.new path.now state (unit.first_state unit_limits path.now)) }
    ensures empty { IfOk result (λ state. state.tokens.items ≡ []) }
    ensures keeps { Extends names.old names.new }
{
    let mut macros = MacroTable::new(alloc);
    define_first(alloc, names, &mut macros)?;
    tell_file(alloc, names, &mut macros, 0, b"<command>")?;
    tell_file(alloc, names, &mut macros, 1, path)?;
    let made = MadeWords::new(names)?;
    let command = names.intern(b"<command>")?;
    let file = names.intern(path)?;
    names.apart();
    let paths = two_paths(alloc, command, file)?;
    Ok(State {
        made,
        macros,
        budget: Budget {
            replacements: MOST_REPLACEMENTS,
            tokens: MOST_MADE_TOKENS,
            counter: 0,
        },
        bytes: 0,
        paths,
        undefined: Vec::new(alloc),
        tokens: Vec::new(alloc),
    })
}

fn two_paths(alloc: Global, command: NameId, file: NameId) -> Result<Vec<NameId>, AllocError>
    ensures { IfOk result (λ paths. paths.items ≡ command ∷ file ∷ []) }
{
    let mut paths = Vec::new(alloc);
    paths.push(command)?;
    paths.push(file)?;
    Ok(paths)
}

// The macros that are defined before the first line (C11 6.10.8.1), the last of the list first.
fn define_first(alloc: Global, names: &mut Names, macros: &mut MacroTable) -> Result<(), AllocError>
    ensures defined { HasMacros names.old [] macros.old → KnowsAll names.old macros.old → OnOk result (HasMacros names.new first_definitions macros.new) }
    ensures knows { KnowsAll names.old macros.old → OnOk result (KnowsAll names.new macros.new) }
    ensures files { macros.new.files ≡ macros.old.files }
    ensures keeps { Extends names.old names.new }
{
    define_number(alloc, names, macros, b"__LP64__", b"1")?;
    define_number(alloc, names, macros, b"__STDC_VERSION__", b"201112L")?;
    define_number(alloc, names, macros, b"__STDC__", b"1")?;
    define_number(alloc, names, macros, b"__CHECKER__", b"1")?;
    Ok(())
}

// Defines a name that has no macro yet, as a number.
fn define_number(
    alloc: Global,
    names: &mut Names,
    macros: &mut MacroTable,
    name: &[u8],
    text: &[u8],
) -> Result<(), AllocError>
    ensures defined { (definitions : List Definition) → HasMacros names.old definitions macros.old → KnowsAll names.old macros.old → macro_of definitions name.now ≡ None →
        OnOk result (HasMacros names.new (number_definition name.now text.now ∷ definitions) macros.new) }
    ensures knows { KnowsAll names.old macros.old → OnOk result (KnowsAll names.new macros.new) }
    ensures files { macros.new.files ≡ macros.old.files }
    ensures keeps { Extends names.old names.new }
{
    let id = names.intern(name)?;
    let m = number_macro(alloc, names, text)?;
    names.apart();
    match macros.define(id, m) {
        Ok(()) => Ok(()),
        Err(_) => Err(AllocError),
    }
}

// The macro that stands for a number.
fn number_macro(alloc: Global, names: &mut Names, text: &[u8]) -> Result<Macro, AllocError>
    ensures seen { IfOk result (λ m. seen.macro_of names.new m ≡ macro_without_list (number_body text.now)) }
    ensures known { IfOk result (IsKnownMacro names.new) }
    ensures formed { IfOk result (λ m. IsWellFormed (by_ids m)) }
    ensures keeps { Extends names.old names.new }
{
    let spelled = names.intern(text)?;
    let mut body = Vec::new(alloc);
    body.push(Token {
        kind: TokenKind::Number,
        space_before: false,
        line_start: false,
        name: spelled,
        place: Place {
            file: 0,
            line: 1,
            column: 1,
        },
    })?;
    Ok(Macro {
        params: None,
        variadic: false,
        body: TokenList::from_vec(body),
    })
}

/// Tells how `__FILE__` is spelled in the file with this number and this path.
pub(crate) fn tell_file(
    alloc: Global,
    names: &mut Names,
    macros: &mut MacroTable,
    number: u32,
    path: &[u8],
) -> Result<(), AllocError>
    ensures told { OnOk result (option_map (text_of names.new) (spelling_of_file macros.new number) ≡ Some (spelled_path path.now)) }
    ensures others { (other : ℕ) → other ≢ number → spelling_of_file macros.new other ≡ spelling_of_file macros.old other }
    ensures macros { macros.new.macros ≡ macros.old.macros }
    ensures knows { KnowsAll names.old macros.old → OnOk result (KnowsAll names.new macros.new) }
    ensures keeps { Extends names.old names.new }
{
    let spelled = spelled_path(alloc, path)?;
    let id = names.intern(&spelled)?;
    macros.set_file(number, id)?;
    Ok(())
}

// A path as a string literal (6.10.8.1 p1).
fn spelled_path(alloc: Global, path: &[u8]) -> Result<Vec<u8>, AllocError>
    ensures { IfOk result (λ spelled. spelled.items ≡ spelled_path path.now) }
{
    let mut spelled = Vec::new(alloc);
    spelled.push(b'"')?;
    push_with_backslashes(&mut spelled, path)?;
    spelled.push(b'"')?;
    Ok(spelled)
}

fn push_with_backslashes(text: &mut Vec<u8>, path: &[u8]) -> Result<(), AllocError>
    ensures { OnOk result (text.new.items ≡ text.old.items ++ with_backslashes path.now) }
{
    let mut left = path;
    'bytes: while let Some((&byte, others)) = left.split_first() {
        push_with_backslash(text, byte)?;
        left = others;
    }
    Ok(())
}

fn push_with_backslash(text: &mut Vec<u8>, byte: u8) -> Result<(), AllocError>
    ensures { OnOk result (text.new.items ≡ text.old.items ++ (if byte == double_quote || byte == backslash then backslash ∷ byte ∷ [] else byte ∷ [])) }
{
    if byte == b'"' || byte == b'\\' {
        text.push(b'\\')?;
        text.push(byte)?;
        return Ok(());
    }
    text.push(byte)?;
    Ok(())
}
