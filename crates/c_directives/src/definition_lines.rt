//! `#define` and `#undef` for callers that read such lines alone (C11 6.10.3, 6.10.3.5).
ghost use Rattle.std.specs.Prelude.{◌≡◌, List};
ghost use Rattle.meaning_text.specs.Tokens.{Tok};
ghost use Rattle.meaning_preprocessing.specs.Directives.{define_turn, undef_turn};
ghost use Rattle.meaning_preprocessing.specs.Groups.{Group};
ghost use Rattle.meaning_preprocessing.specs.State.{UnitState};
ghost use Rattle.c_tokens.specs.Seen.{Extends, toks_of};
ghost use Rattle.c_macros.specs.Seen.{KnowsAll};
ghost use Rattle.c_directives.specs.Conditions.{AreKnown, HasMacros};
ghost use Rattle.c_directives.specs.Groups.{IsKept};

use crate::fault::LineFault;
use crate::macro_lines::{turn_define, turn_undef};
use crate::made::MadeWords;
use c_macros::{MacroTable, known_tables_stay_known};
use c_tokens::{Names, Token};
use std::alloc::Global;

/// Defines what the tokens behind the word `define` say.
///
/// # Errors
/// `MalformedDirective`, `BadMacroDefinition`, and `MacroRedefined` with the macro's name, in this order.
pub fn define(
    alloc: Global,
    names: &mut Names,
    macros: &mut MacroTable,
    line: &[Token],
) -> Result<(), LineFault>
    requires known { AreKnown names.old line.now }
    ensures kept { (hash : Tok) (groups : List Group) (s : UnitState) → HasMacros names.new s.definitions macros.old →
        IsKept names.new s hash groups macros.new result (define_turn hash (toks_of names.new line.now) groups s) }
    ensures knows { KnowsAll names.old macros.old → KnowsAll names.new macros.new }
    ensures keeps { Extends names.old names.new }
{
    let made = MadeWords::new(names)?;
    known_tables_stay_known();
    turn_define(alloc, names, made, macros, line)
}

/// Drops the macro that the tokens behind the word `undef` name.
///
/// # Errors
/// `MalformedDirective` where they aren't one name.
pub fn undefine(names: &Names, macros: &mut MacroTable, line: &[Token]) -> Result<(), LineFault>
    requires known { AreKnown names.now line.now }
    ensures kept { (hash : Tok) (groups : List Group) (s : UnitState) → HasMacros names.now s.definitions macros.old →
        IsKept names.now s hash groups macros.new result (undef_turn hash (toks_of names.now line.now) groups s) }
    ensures knows { KnowsAll names.now macros.old → KnowsAll names.now macros.new }
{
    turn_undef(names, macros, line)
}
