//! A directive (C11 6.10): what it does to the open groups, and what is left to do for those that know more: of
//! macros, files and errors.
ghost use Rattle.std.specs.Prelude.{◌≡◌, ◌∷◌, Bool, List, IfOk};
ghost use Rattle.meaning_text.specs.Tokens.{Tok};
ghost use Rattle.meaning_preprocessing.specs.Directives.{read_turn, skipped_turn, turn_of};
ghost use Rattle.meaning_preprocessing.specs.Groups as conditionals;
ghost use Rattle.meaning_preprocessing.specs.Groups.{Evaluation, Turn, Turns, elif_turn, else_turn, endif_turn, skipped_group, with_condition};
ghost use Rattle.meaning_preprocessing.specs.State.{UnitState};
ghost use Rattle.c_tokens.specs.Seen.{tok_of, toks_of};
ghost use Rattle.c_directives.specs.Conditions.{AreKnown, HasMacros};
ghost use Rattle.c_directives.specs.Directives.{IsCondition, IsDirective, IsKnownTask, LeavesGroups};
ghost use Rattle.c_directives.specs.Groups.{groups_seen, with_part};
ghost use Rattle.c_directives.specs.Lines.{name_seen};
ghost use Rattle.c_directives.specs.Made.{AreMadeWords};

use crate::defined::answer_defined;
use crate::fault::LineFault;
use crate::groups::{
    Group, NextPart, are_read, begin_elif, open_by_name, open_skipped, turn_else, turn_endif,
};
use crate::made::MadeWords;
use crate::words::{DirectiveName, read_word};
use c_macros::MacroTable;
use c_tokens::{Names, Token};
use sparse_model::ErrorKind;
use std::alloc::Global;

/// What is left to do at a directive. The lines are the tokens behind its word.
#[derive(Drop)]
pub enum Task<'t> {
    Nothing,
    /// A group begins, by what these tokens come to.
    If { tokens: Vec<Token> },
    /// The next part of the innermost group begins, by what these tokens come to.
    Elif { tokens: Vec<Token> },
    Include { line: &'t [Token] },
    Define { line: &'t [Token] },
    Undef { line: &'t [Token] },
    Error { line: &'t [Token] },
}

/// Does what the tokens behind `#` say, so far as it is known here.
pub fn begin_directive<'t>(
    alloc: Global,
    names: &Names,
    made: MadeWords,
    macros: &MacroTable,
    groups: &mut Vec<Group>,
    hash: &Token,
    rest: &'t [Token],
) -> Result<Task<'t>, LineFault>
    requires known { AreKnown names.now rest.now }
    requires made { AreMadeWords names.now made }
    ensures done { (value : Evaluation) (s : UnitState) → HasMacros names.now s.definitions macros.now →
        IsDirective names.now value s (tok_of names.now hash.now) groups.new.items result
        (turn_of value (tok_of names.now hash.now) (toks_of names.now rest.now) (groups_seen groups.old.items) s) }
    ensures known { IfOk result (IsKnownTask names.now) }
    ensures left { IfOk result (LeavesGroups (groups_seen groups.old.items) (groups_seen groups.new.items)) }
{
    let (name, line) = read_word(names, rest);
    if are_read(groups) {
        read_directive(alloc, names, made, macros, groups, name, hash, line)
    } else {
        skip_directive(alloc, names, made, macros, groups, name, hash, line)
    }
}

// Where lines are read.
fn read_directive<'t>(
    alloc: Global,
    names: &Names,
    made: MadeWords,
    macros: &MacroTable,
    groups: &mut Vec<Group>,
    name: DirectiveName,
    hash: &Token,
    line: &'t [Token],
) -> Result<Task<'t>, LineFault>
    requires known { AreKnown names.now line.now }
    requires made { AreMadeWords names.now made }
    ensures done { (value : Evaluation) (s : UnitState) → HasMacros names.now s.definitions macros.now →
        IsDirective names.now value s (tok_of names.now hash.now) groups.new.items result
        (read_turn value (name_seen name) (tok_of names.now hash.now) (toks_of names.now line.now) (groups_seen groups.old.items) s) }
    ensures known { IfOk result (IsKnownTask names.now) }
    ensures left { IfOk result (LeavesGroups (groups_seen groups.old.items) (groups_seen groups.new.items)) }
{
    match name {
        DirectiveName::If => match condition_tokens(alloc, names, made, macros, line) {
            Ok(tokens) => Ok(Task::If { tokens }),
            Err(fault) => Err(fault),
        },
        DirectiveName::Ifdef => match open_by_name(names, macros, groups, true, hash, line) {
            Ok(()) => Ok(Task::Nothing),
            Err(fault) => Err(fault),
        },
        DirectiveName::Ifndef => match open_by_name(names, macros, groups, false, hash, line) {
            Ok(()) => Ok(Task::Nothing),
            Err(fault) => Err(fault),
        },
        DirectiveName::Elif => elif_task(alloc, names, made, macros, groups, hash, line),
        DirectiveName::Else => else_task(names, groups, hash, line),
        DirectiveName::Endif => endif_task(names, groups, hash, line),
        DirectiveName::Include => Ok(Task::Include { line }),
        DirectiveName::Define => Ok(Task::Define { line }),
        DirectiveName::Undef => Ok(Task::Undef { line }),
        DirectiveName::Error => Ok(Task::Error { line }),
        DirectiveName::Unread => Ok(Task::Nothing),
        DirectiveName::Unknown => Err(LineFault::Refused(ErrorKind::UnknownDirective, None)),
    }
}

// Where lines are skipped: only conditionals count (6.10.1 p6).
fn skip_directive<'t>(
    alloc: Global,
    names: &Names,
    made: MadeWords,
    macros: &MacroTable,
    groups: &mut Vec<Group>,
    name: DirectiveName,
    hash: &Token,
    line: &'t [Token],
) -> Result<Task<'t>, LineFault>
    requires known { AreKnown names.now line.now }
    requires made { AreMadeWords names.now made }
    ensures done { (value : Evaluation) (s : UnitState) → HasMacros names.now s.definitions macros.now →
        IsDirective names.now value s (tok_of names.now hash.now) groups.new.items result
        (skipped_turn value (name_seen name) (tok_of names.now hash.now) (toks_of names.now line.now) (groups_seen groups.old.items) s) }
    ensures known { IfOk result (IsKnownTask names.now) }
    ensures left { IfOk result (LeavesGroups (groups_seen groups.old.items) (groups_seen groups.new.items)) }
{
    match name {
        DirectiveName::If => skipped_task(names, groups, hash),
        DirectiveName::Ifdef => skipped_task(names, groups, hash),
        DirectiveName::Ifndef => skipped_task(names, groups, hash),
        DirectiveName::Elif => elif_task(alloc, names, made, macros, groups, hash, line),
        DirectiveName::Else => else_task(names, groups, hash, line),
        DirectiveName::Endif => endif_task(names, groups, hash, line),
        _ => Ok(Task::Nothing),
    }
}

fn elif_task<'t>(
    alloc: Global,
    names: &Names,
    made: MadeWords,
    macros: &MacroTable,
    groups: &mut Vec<Group>,
    hash: &Token,
    line: &'t [Token],
) -> Result<Task<'t>, LineFault>
    requires known { AreKnown names.now line.now }
    requires made { AreMadeWords names.now made }
    ensures done { (value : Evaluation) (s : UnitState) → HasMacros names.now s.definitions macros.now →
        IsDirective names.now value s (tok_of names.now hash.now) groups.new.items result
        (elif_turn value (tok_of names.now hash.now) (toks_of names.now line.now) (groups_seen groups.old.items) s) }
    ensures known { IfOk result (IsKnownTask names.now) }
    ensures left { IfOk result (LeavesGroups (groups_seen groups.old.items) (groups_seen groups.new.items)) }
{
    match begin_elif(groups) {
        Ok(NextPart::Asked) => elif_condition(alloc, names, made, macros, groups, hash, line),
        Ok(NextPart::Skipped) => Ok(Task::Nothing),
        Err(fault) => Err(fault),
    }
}

fn elif_condition<'t>(
    alloc: Global,
    names: &Names,
    made: MadeWords,
    macros: &MacroTable,
    groups: &Vec<Group>,
    hash: &Token,
    line: &'t [Token],
) -> Result<Task<'t>, LineFault>
    requires known { AreKnown names.now line.now }
    requires made { AreMadeWords names.now made }
    ensures done { (value : Evaluation) (s : UnitState) → HasMacros names.now s.definitions macros.now →
        IsDirective names.now value s (tok_of names.now hash.now) groups.now.items result
        (with_condition value (tok_of names.now hash.now) (toks_of names.now line.now) s (λ holds u. Turns (with_part holds (groups_seen groups.now.items)) u)) }
    ensures known { IfOk result (IsKnownTask names.now) }
    ensures left { (before : List conditionals.Group) → IfOk result (LeavesGroups before (groups_seen groups.now.items)) }
{
    match condition_tokens(alloc, names, made, macros, line) {
        Ok(tokens) => Ok(Task::Elif { tokens }),
        Err(fault) => Err(fault),
    }
}

fn skipped_task<'t>(
    names: &Names,
    groups: &mut Vec<Group>,
    hash: &Token,
) -> Result<Task<'t>, LineFault>
    ensures done { (value : Evaluation) (s : UnitState) →
        IsDirective names.now value s (tok_of names.now hash.now) groups.new.items result
        (Turns (skipped_group (tok_of names.now hash.now) ∷ groups_seen groups.old.items) s) }
    ensures known { IfOk result (IsKnownTask names.now) }
    ensures left { IfOk result (LeavesGroups (groups_seen groups.old.items) (groups_seen groups.new.items)) }
{
    match open_skipped(groups, hash) {
        Ok(()) => Ok(Task::Nothing),
        Err(fault) => Err(fault),
    }
}

fn else_task<'t>(
    names: &Names,
    groups: &mut Vec<Group>,
    hash: &Token,
    line: &'t [Token],
) -> Result<Task<'t>, LineFault>
    ensures done { (value : Evaluation) (s : UnitState) →
        IsDirective names.now value s (tok_of names.now hash.now) groups.new.items result
        (else_turn (tok_of names.now hash.now) (toks_of names.now line.now) (groups_seen groups.old.items) s) }
    ensures known { IfOk result (IsKnownTask names.now) }
    ensures left { IfOk result (LeavesGroups (groups_seen groups.old.items) (groups_seen groups.new.items)) }
{
    match turn_else(groups, line) {
        Ok(()) => Ok(Task::Nothing),
        Err(fault) => Err(fault),
    }
}

fn endif_task<'t>(
    names: &Names,
    groups: &mut Vec<Group>,
    hash: &Token,
    line: &'t [Token],
) -> Result<Task<'t>, LineFault>
    ensures done { (value : Evaluation) (s : UnitState) →
        IsDirective names.now value s (tok_of names.now hash.now) groups.new.items result
        (endif_turn (tok_of names.now hash.now) (toks_of names.now line.now) (groups_seen groups.old.items) s) }
    ensures known { IfOk result (IsKnownTask names.now) }
    ensures left { IfOk result (LeavesGroups (groups_seen groups.old.items) (groups_seen groups.new.items)) }
{
    match turn_endif(groups, line) {
        Ok(()) => Ok(Task::Nothing),
        Err(fault) => Err(fault),
    }
}

// The tokens of a condition, with each `defined` answered.
fn condition_tokens(
    alloc: Global,
    names: &Names,
    made: MadeWords,
    macros: &MacroTable,
    line: &[Token],
) -> Result<Vec<Token>, LineFault>
    requires known { AreKnown names.now line.now }
    requires made { AreMadeWords names.now made }
    ensures done { (value : Evaluation) (hash : Tok) (s : UnitState) (next : Bool → UnitState → Turn) → HasMacros names.now s.definitions macros.now →
        IsCondition names.now value hash s next result (with_condition value hash (toks_of names.now line.now) s next) }
    ensures known { IfOk result (λ tokens. AreKnown names.now tokens.items) }
{
    let found = answer_defined(alloc, names, made, macros, line)?;
    let Some(tokens) = found else {
        return Err(LineFault::Refused(ErrorKind::BadIfExpression, None));
    };
    Ok(tokens)
}
