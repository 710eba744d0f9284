// A command: the file that its one word names, to what is written of it. Who writes it isn't known here.
ghost use Rattle.std.specs.Prelude.{◌≡◌, IfOk, IsErrOf};
ghost use Rattle.meaning_outside.specs.Faults.{Told};
ghost use Rattle.c_preproc.specs.Units.{IsKnownUnit};
ghost use Rattle.ksparse.specs.Written.{reply_seen};
ghost use Rattle.unit_commands.specs.Commands.{IsReplyOf};

use crate::lowered::lower_tokens;
use crate::tree::show_tokens;
use crate::types::type_tokens;
use c_preproc::{UnitTokens, preprocess};
use c_tokens::Names;
use ksparse::{Exit, Stop, Written, deliver, tell_stop};
use sparse_model::{Bytes, ClassSet, Options, PathList};
use sparse_outside::{Files, Sink, Words};
use std::alloc::{AllocError, Global};

/// What is shown of a unit.
#[derive(Clone, Copy, Debug, PartialEq, Eq)]
pub enum Command {
    /// The flows of its functions.
    Lowered,
    /// Its tree.
    Trees,
    /// The types of its expressions.
    Types,
}

/// Writes what the command shows of the file that the one word names to `out`, without directories or definitions from words; or the
/// line for which it has nothing to `err`. Says how it ended as the checker does.
pub fn show<F: Files, O: Sink, E: Sink>(
    alloc: Global,
    command: Command,
    words: &Words,
    files: &mut F,
    out: &mut O,
    err: &mut E,
) -> Exit
    ensures keeps { F.holds files.new ≡ F.holds files.old }
{
    let written = match answer(alloc, command, words, files) {
        Ok(written) => written,
        Err(Stop::ReadFault) => return Exit::ReadFault,
        Err(Stop::NoMemory) => return Exit::NoMemory,
    };
    if deliver(&written, out, err) {
        written.exit
    } else {
        Exit::WriteFault
    }
}

/// What is written for these words.
///
/// # Errors
/// `ReadFault` exactly where the count of faults rose; `NoMemory`.
pub fn answer<F: Files>(
    alloc: Global,
    command: Command,
    words: &Words,
    files: &mut F,
) -> Result<Written, Stop>
    ensures read { Told (F.faults files.old) (F.faults files.new) (IsErrOf result Stop.ReadFault) }
    ensures keeps { F.holds files.new ≡ F.holds files.old }
{
    match words.get(0) {
        Some(path) if words.len() == 1 => show_file(alloc, command, path, files),
        _ => Ok(Written::line(alloc, Exit::Usage, b"usage: ", usage(command))?),
    }
}

// How the command is used.
fn usage(command: Command) -> &'static [u8] {
    match command {
        Command::Lowered => b"lowered FILE",
        Command::Trees => b"trees FILE",
        Command::Types => b"types FILE",
    }
}

// What is written of the file at this path.
fn show_file<F: Files>(
    alloc: Global,
    command: Command,
    path: &[u8],
    files: &mut F,
) -> Result<Written, Stop>
    ensures read { Told (F.faults files.old) (F.faults files.new) (IsErrOf result Stop.ReadFault) }
    ensures keeps { F.holds files.new ≡ F.holds files.old }
{
    let options = Options {
        dirs: PathList::new(alloc),
        commands: Bytes::new(alloc),
        classes: ClassSet::new(alloc),
    };
    let mut names = Names::new(alloc)?;
    match preprocess(alloc, &options, files, &mut names, path) {
        Ok(toks) => Ok(written_of(alloc, command, &names, &toks)?),
        Err(fault) => tell_stop(alloc, &names, fault),
    }
}

/// What is written of the tokens of a unit: what the command shows of the tree that they derive, or the line of their refusal.
///
/// # Errors
/// Want of memory.
pub fn written_of(
    alloc: Global,
    command: Command,
    names: &Names,
    toks: &UnitTokens,
) -> Result<Written, AllocError>
    requires { IsKnownUnit names.now toks.now }
    ensures { IfOk result (λ written. IsReplyOf command names.now toks.now (reply_seen written)) }
{
    match command {
        Command::Lowered => lower_tokens(alloc, names, toks),
        Command::Trees => show_tokens(alloc, names, toks),
        Command::Types => type_tokens(alloc, names, toks),
    }
}
