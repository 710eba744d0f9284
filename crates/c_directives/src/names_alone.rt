//! A name that stands alone behind a directive's word, and whether it names a macro (C11 6.10.1 p1, p5,
//! 6.10.3.5).
ghost use Rattle.std.specs.Prelude.{◌≡◌, ◌||◌, All, List, ℕ, is_some, option_map, IfSome};
ghost use Rattle.meaning_macros.specs.Macros.{Definition, predefined_of};
ghost use Rattle.meaning_preprocessing.specs.ConditionLines.{is_defined};
ghost use Rattle.c_tokens.specs.Seen.{IsKnown, text_of, toks_of};
ghost use Rattle.c_macros.specs.Table.{macro_at};
ghost use Rattle.c_directives.specs.Conditions.{HasMacros, name_alone};

use c_macros::MacroTable;
use c_tokens::{Names, Token};
use sparse_model::{NameId, TokenKind};

/// The one identifier that the tokens are.
pub(crate) fn name_alone(line: &[Token]) -> Option<NameId>
    ensures name { (names : List (List ℕ)) → option_map (text_of names) result ≡ name_alone (toks_of names line.now) }
    ensures known { (names : List (List ℕ)) → All (λ token. IsKnown names token.name) line.now → IfSome result (IsKnown names) }
{
    let (token, others) = line.split_first()?;
    if !others.is_empty() {
        return None;
    }
    match token.kind {
        TokenKind::Identifier => Some(token.name),
        _ => None,
    }
}

/// Whether the name is that of a macro, also of one that has another value at each place.
pub(crate) fn is_defined(names: &Names, macros: &MacroTable, name: NameId) -> bool
    requires { IsKnown names.now name }
    ensures { (definitions : List Definition) → HasMacros names.now definitions macros.now → result ≡ is_defined definitions (text_of names.now name) }
{
    has_macro(macros, name) || is_predefined(names.spelling(name))
}

fn has_macro(macros: &MacroTable, name: NameId) -> bool
    ensures { result ≡ is_some (macro_at macros.now name) }
{
    macros.find(name).is_some()
}

fn is_predefined(text: &[u8]) -> bool
    ensures { result ≡ is_some (predefined_of text.now) }
{
    text == b"__FILE__".as_slice()
        || text == b"__LINE__".as_slice()
        || text == b"__COUNTER__".as_slice()
}
