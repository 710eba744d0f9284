//! Conditional groups (C11 6.10.1): a stack of those that are open in a file. What a condition comes to isn't
//! known here.
ghost use Rattle.std.specs.Prelude.{◌≡◌, ◌++◌, ◌∷◌, [], Bool, List, ℕ, IfErr, MatchOption, OnOk};
ghost use Rattle.meaning_text.specs.Tokens.{Tok};
ghost use Rattle.meaning_preprocessing.specs.Groups.{Evaluation, are_read, closed_file, elif_turn, else_turn, endif_turn, group_of, ifdef_turn, same_truth, skipped_group};
ghost use Rattle.meaning_preprocessing.specs.State.{UnitState};
ghost use Rattle.c_tokens.specs.Seen.{tok_of, toks_of};
ghost use Rattle.c_directives.specs.Conditions.{AreKnown, HasMacros};
ghost use Rattle.c_directives.specs.Groups.{IsElifBegun, IsTurned, closed_by, groups_seen, with_part};

use crate::fault::LineFault;
use crate::names_alone::{is_defined, name_alone};
use c_macros::MacroTable;
use c_tokens::{Names, Token};
use sparse_model::{ErrorKind, Place};

/// From an `#if`, `#ifdef` or `#ifndef` to its `#endif`.
#[derive(Clone, Copy, Debug, PartialEq, Eq)]
pub struct Group {
    /// Where the `#` stands that began it.
    pub place: Place,
    /// What stands around it is read.
    pub outer: bool,
    /// One of its parts was read, or is.
    pub taken: bool,
    /// The part that is open is read.
    pub reads: bool,
    /// The part that is open is that behind `#else`.
    pub last: bool,
}

/// What an `#elif` makes of the part behind it.
#[derive(Clone, Copy, Debug, PartialEq, Eq)]
pub(crate) enum NextPart {
    /// It is read where the condition holds.
    Asked,
    Skipped,
}

/// Whether lines are read within these groups.
pub fn are_read(groups: &Vec<Group>) -> bool
    ensures { result ≡ are_read (groups_seen groups.now.items) }
{
    match innermost(groups) {
        Some(group) => group.reads,
        None => true,
    }
}

fn innermost(groups: &Vec<Group>) -> Option<Group>
    ensures { MatchOption result
        (groups.now.items ≡ [])
        (λ group. (others : List Group) × (groups.now.items ≡ others ++ group ∷ [])) }
{
    match groups.last() {
        Some(&group) => Some(group),
        None => None,
    }
}

/// Where the outermost open group began, at the end of a file.
pub fn outermost(groups: &Vec<Group>) -> Option<Place>
    ensures { (s : UnitState) → closed_file (groups_seen groups.now.items) s ≡ closed_by s result }
{
    let Some((group, _)) = groups.as_slice().split_first() else {
        return None;
    };
    Some(group.place)
}

/// Begins the group of a condition.
pub fn open_group(groups: &mut Vec<Group>, hash: &Token, holds: bool) -> Result<(), LineFault>
    ensures opened { OnOk result ((names : List (List ℕ)) → groups_seen groups.new.items ≡ group_of (tok_of names hash.now) holds ∷ groups_seen groups.old.items) }
    ensures only { IfErr result (λ fault. fault ≡ LineFault.Memory) }
{
    groups.push(Group {
        place: hash.place,
        outer: true,
        taken: holds,
        reads: holds,
        last: false,
    })?;
    Ok(())
}

/// Begins a group within one that is skipped.
pub(crate) fn open_skipped(groups: &mut Vec<Group>, hash: &Token) -> Result<(), LineFault>
    ensures opened { OnOk result ((names : List (List ℕ)) → groups_seen groups.new.items ≡ skipped_group (tok_of names hash.now) ∷ groups_seen groups.old.items) }
    ensures only { IfErr result (λ fault. fault ≡ LineFault.Memory) }
{
    groups.push(Group {
        place: hash.place,
        outer: false,
        taken: false,
        reads: false,
        last: false,
    })?;
    Ok(())
}

/// `#ifdef`, where a macro of that name is wanted, and `#ifndef` (6.10.1 p5).
pub(crate) fn open_by_name(
    names: &Names,
    macros: &MacroTable,
    groups: &mut Vec<Group>,
    wanted: bool,
    hash: &Token,
    line: &[Token],
) -> Result<(), LineFault>
    requires { AreKnown names.now line.now }
    ensures { (s : UnitState) → HasMacros names.now s.definitions macros.now →
        IsTurned names.now s (tok_of names.now hash.now) groups.new.items result (ifdef_turn wanted (tok_of names.now hash.now) (toks_of names.now line.now) (groups_seen groups.old.items) s) }
{
    let Some(name) = name_alone(line) else {
        return Err(LineFault::Refused(ErrorKind::MalformedDirective, None));
    };
    let holds = same_truth(wanted, is_defined(names, macros, name));
    match open_group(groups, hash, holds) {
        Ok(()) => Ok(()),
        Err(fault) => Err(fault),
    }
}

fn same_truth(wanted: bool, holds: bool) -> bool
    ensures { result ≡ same_truth wanted holds }
{
    if wanted { holds } else { !holds }
}

/// Whether an `#elif` is evaluated (6.10.1 p6). Where it isn't, it is done.
pub(crate) fn begin_elif(groups: &mut Vec<Group>) -> Result<NextPart, LineFault>
    ensures { (names : List (List ℕ)) (value : Evaluation) (hash : Tok) (line : List Tok) (s : UnitState) →
        IsElifBegun names value hash line s groups.new.items result (elif_turn value hash line (groups_seen groups.old.items) s) }
{
    let Some(group) = groups.pop() else {
        return Err(LineFault::Refused(ErrorKind::ConditionalWithoutIf, None));
    };
    if group.last {
        return Err(LineFault::Refused(ErrorKind::ConditionalAfterElse, None));
    }
    if group.outer && !group.taken {
        groups.push(group)?;
        return Ok(NextPart::Asked);
    }
    groups.push(Group {
        place: group.place,
        outer: group.outer,
        taken: group.taken,
        reads: false,
        last: group.last,
    })?;
    Ok(NextPart::Skipped)
}

/// The part behind an `#elif` that was evaluated.
pub fn end_elif(groups: &mut Vec<Group>, holds: bool) -> Result<(), LineFault>
    ensures part { OnOk result (groups_seen groups.new.items ≡ with_part holds (groups_seen groups.old.items)) }
    ensures only { IfErr result (λ fault. fault ≡ LineFault.Memory) }
{
    let Some(group) = groups.pop() else {
        return Ok(());
    };
    groups.push(Group {
        place: group.place,
        outer: group.outer,
        taken: holds,
        reads: holds,
        last: group.last,
    })?;
    Ok(())
}

/// `#else`, with the tokens behind it.
pub(crate) fn turn_else(groups: &mut Vec<Group>, line: &[Token]) -> Result<(), LineFault>
    ensures { (names : List (List ℕ)) (hash : Tok) (s : UnitState) →
        IsTurned names s hash groups.new.items result (else_turn hash (toks_of names line.now) (groups_seen groups.old.items) s) }
{
    let Some(group) = groups.pop() else {
        return Err(LineFault::Refused(ErrorKind::ConditionalWithoutIf, None));
    };
    if group.last {
        return Err(LineFault::Refused(ErrorKind::ConditionalAfterElse, None));
    }
    if group.outer && !line.is_empty() {
        return Err(LineFault::Refused(ErrorKind::MalformedDirective, None));
    }
    groups.push(Group {
        place: group.place,
        outer: group.outer,
        taken: true,
        reads: group.outer && !group.taken,
        last: true,
    })?;
    Ok(())
}

/// `#endif`, with the tokens behind it.
pub(crate) fn turn_endif(groups: &mut Vec<Group>, line: &[Token]) -> Result<(), LineFault>
    ensures { (names : List (List ℕ)) (hash : Tok) (s : UnitState) →
        IsTurned names s hash groups.new.items result (endif_turn hash (toks_of names line.now) (groups_seen groups.old.items) s) }
{
    let Some(group) = groups.pop() else {
        return Err(LineFault::Refused(ErrorKind::ConditionalWithoutIf, None));
    };
    if group.outer && !line.is_empty() {
        return Err(LineFault::Refused(ErrorKind::MalformedDirective, None));
    }
    Ok(())
}
