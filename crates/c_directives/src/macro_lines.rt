//! `#define` and `#undef` over the table of macros (C11 6.10.3, 6.10.3.5).
ghost use Rattle.std.specs.Prelude.{◌≡◌, List, ℕ, OnErr};
ghost use Rattle.meaning_text.specs.Tokens.{Tok};
ghost use Rattle.meaning_preprocessing.specs.Directives.{define_turn, undef_turn};
ghost use Rattle.meaning_preprocessing.specs.Groups.{Group};
ghost use Rattle.meaning_preprocessing.specs.State.{UnitState};
ghost use Rattle.c_tokens.specs.Seen.{toks_of};
ghost use Rattle.c_macros.specs.Seen.{KnowsAll};
ghost use Rattle.c_directives.specs.Conditions.{AreKnown, HasMacros};
ghost use Rattle.c_directives.specs.Groups.{IsKept};
ghost use Rattle.c_directives.specs.Made.{AreMadeWords};

use crate::definition::read_definition;
use crate::fault::LineFault;
use crate::made::MadeWords;
use crate::names_alone::name_alone;
use c_macros::{DefineFault, MacroTable, ids_say_what_spellings_say};
use c_tokens::{Names, Token};
use sparse_model::ErrorKind;
use std::alloc::Global;

/// `#define`, with the tokens behind it.
///
/// # Errors
/// `MalformedDirective`, `BadMacroDefinition`, and `MacroRedefined` with the macro's name, in this order.
pub fn turn_define(
    alloc: Global,
    names: &Names,
    made: MadeWords,
    macros: &mut MacroTable,
    line: &[Token],
) -> Result<(), LineFault>
    requires known { AreKnown names.now line.now }
    requires made { AreMadeWords names.now made }
    ensures kept { (hash : Tok) (groups : List Group) (s : UnitState) → HasMacros names.now s.definitions macros.old →
        IsKept names.now s hash groups macros.new result (define_turn hash (toks_of names.now line.now) groups s) }
    ensures knows { KnowsAll names.now macros.old → KnowsAll names.now macros.new }
    ensures files { macros.new.files ≡ macros.old.files }
    ensures err { OnErr result (macros.new ≡ macros.old) }
{
    let (name, m) = match read_definition(alloc, names, made, line) {
        Ok(definition) => definition,
        Err(fault) => return Err(fault),
    };
    names.apart();
    ids_say_what_spellings_say();
    match macros.define(name, m) {
        Ok(()) => Ok(()),
        Err(DefineFault::Redefined) => Err(LineFault::Refused(
            ErrorKind::MacroRedefined,
            Some(name),
        )),
        Err(DefineFault::Memory) => Err(LineFault::Memory),
    }
}

/// `#undef`, with the tokens behind it.
pub fn turn_undef(names: &Names, macros: &mut MacroTable, line: &[Token]) -> Result<(), LineFault>
    requires { AreKnown names.now line.now }
    ensures kept { (hash : Tok) (groups : List Group) (s : UnitState) → HasMacros names.now s.definitions macros.old →
        IsKept names.now s hash groups macros.new result (undef_turn hash (toks_of names.now line.now) groups s) }
    ensures knows { KnowsAll names.now macros.old → KnowsAll names.now macros.new }
    ensures files { macros.new.files ≡ macros.old.files }
    ensures err { OnErr result (macros.new ≡ macros.old) }
{
    let Some(name) = name_alone(line) else {
        return Err(LineFault::Refused(ErrorKind::MalformedDirective, None));
    };
    names.apart();
    macros.undef(name);
    Ok(())
}
