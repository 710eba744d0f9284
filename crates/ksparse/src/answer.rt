// The words of a command, and the unit that they name, to the reply.
ghost use Rattle.std.specs.Prelude.{◌≡◌, ◌↔◌, IfErr, IfOk, IsErrOf, List};
ghost use Rattle.meaning_outside.specs.Faults.{Told};
ghost use Rattle.meaning_outside.specs.Files.{FileMap};
ghost use Rattle.meaning_outside.specs.Loads.{AgreesWith, Loaded, loads_since};
ghost use Rattle.meaning_answer.specs.Answers.{IsAnswer, IsRequestReply};
ghost use Rattle.meaning_answer.specs.Reply.{Clean};
ghost use Rattle.meaning_answer.specs.Requests.{Check, Expand};
ghost use Rattle.c_preproc.specs.States.{IsKnownFault, stop_of};
ghost use Rattle.ksparse.specs.Ending.{ending_seen};
ghost use Rattle.ksparse.specs.Loading.{Loading};
ghost use Rattle.ksparse.specs.Safe.{IsSafeIfClean, NamesSafeUnit};
ghost use Rattle.ksparse.specs.Stopping.{TellsStop};
ghost use Rattle.ksparse.specs.Words.{IsFaultOf, options_seen};
ghost use Rattle.ksparse.specs.Written.{reply_seen};

use crate::check::check_tokens;
use crate::command::{Command, WordFault, read_words};
use crate::expand::expand_tokens;
use crate::refusal::{bad_word, error, limit, missing_file};
use crate::reply::Written;
use c_preproc::{PreFault, preprocess};
use c_tokens::Names;
use sparse_model::Options;
use sparse_outside::{Files, Words};
use std::alloc::{AllocError, Global};

/// Why there is no reply.
#[derive(Clone, Copy, Debug, PartialEq, Eq)]
pub enum Stop {
    ReadFault,
    NoMemory,
}

impl From<AllocError> for Stop {
    ghost use Rattle.std.specs.Prelude.{◌≡◌};
    ghost use Rattle.ksparse.specs.declared.answer.Stop.TheVariants.{NoMemory};

    ghost from_gives = { λ _ stop. stop ≡ NoMemory };

    fn from(_error: AllocError) -> Self {
        Stop::NoMemory
    }
}

/// The reply to the words of a command, over each map that agrees with what it loads.
pub fn answer<F: Files>(alloc: Global, words: &Words, files: &mut F) -> Result<Written, Stop>
    ensures right { IfOk result (λ written. (map : FileMap)
        → AgreesWith map (loads_since (F.loads files.old) (F.loads files.new))
        → IsAnswer words.now map (reply_seen written)) }
    ensures safe { IfOk result (λ written. IsSafeIfClean words.now (loads_since (F.loads files.old) (F.loads files.new))
        (ending_seen written.exit)) }
    ensures loading { Loading (F.holds files.old) (F.loads files.old) (F.loads files.new) }
    ensures cause { Told (F.faults files.old) (F.faults files.new) (IsErrOf result Stop.ReadFault) }
    ensures keeps { F.holds files.new ≡ F.holds files.old }
{
    match read_words(alloc, words) {
        Ok(Command::Check { options, file }) => check_file(alloc, &options, file.as_slice(), files),
        Ok(Command::Expand { options, file }) => {
            expand_file(alloc, &options, file.as_slice(), files)
        }
        Err(fault) => usage(alloc, words, fault),
    }
}

// The reply to words that are at fault.
fn usage(alloc: Global, words: &Words, fault: WordFault) -> Result<Written, Stop>
    requires { IsFaultOf words.now fault }
    ensures right { IfOk result (λ written. (map : FileMap) → IsAnswer words.now map (reply_seen written)) }
    ensures safe { IfOk result (λ written. (loads : List Loaded) → IsSafeIfClean words.now loads (ending_seen written.exit)) }
    ensures memory { IfErr result (λ stop. stop ≡ Stop.NoMemory) }
{
    match fault {
        WordFault::BadWord(position) => {
            let word = words.get(position).unwrap();
            Ok(bad_word(alloc, word)?)
        }
        WordFault::MissingFile => Ok(missing_file(alloc)?),
        WordFault::Memory => Err(Stop::NoMemory),
    }
}

// The reply to the check of a file.
fn check_file<F: Files>(
    alloc: Global,
    options: &Options,
    path: &[u8],
    files: &mut F,
) -> Result<Written, Stop>
    ensures right { IfOk result (λ written. (map : FileMap)
        → AgreesWith map (loads_since (F.loads files.old) (F.loads files.new))
        → IsRequestReply (Check (options_seen options.now) path.now) map (reply_seen written)) }
    ensures safe { IfOk result (λ written. ending_seen written.exit ≡ Clean → (map : FileMap)
        → AgreesWith map (loads_since (F.loads files.old) (F.loads files.new))
        → NamesSafeUnit (Check (options_seen options.now) path.now) map) }
    ensures loading { Loading (F.holds files.old) (F.loads files.old) (F.loads files.new) }
    ensures cause { Told (F.faults files.old) (F.faults files.new) (IsErrOf result Stop.ReadFault) }
    ensures keeps { F.holds files.new ≡ F.holds files.old }
{
    let mut names = Names::new(alloc)?;
    match preprocess(alloc, options, files, &mut names, path) {
        Ok(toks) => Ok(check_tokens(alloc, names, toks, &options.classes)?),
        Err(fault) => tell_stop(alloc, &names, fault),
    }
}

// The reply to the question for the tokens of a file.
fn expand_file<F: Files>(
    alloc: Global,
    options: &Options,
    path: &[u8],
    files: &mut F,
) -> Result<Written, Stop>
    ensures right { IfOk result (λ written. (map : FileMap)
        → AgreesWith map (loads_since (F.loads files.old) (F.loads files.new))
        → IsRequestReply (Expand (options_seen options.now) path.now) map (reply_seen written)) }
    ensures loading { Loading (F.holds files.old) (F.loads files.old) (F.loads files.new) }
    ensures cause { Told (F.faults files.old) (F.faults files.new) (IsErrOf result Stop.ReadFault) }
    ensures keeps { F.holds files.new ≡ F.holds files.old }
{
    let mut names = Names::new(alloc)?;
    match preprocess(alloc, options, files, &mut names, path) {
        Ok(toks) => Ok(expand_tokens(alloc, &names, toks.tokens.as_slice())?),
        Err(fault) => tell_stop(alloc, &names, fault),
    }
}

/// The reply to a unit that ends early.
pub fn tell_stop(alloc: Global, names: &Names, fault: PreFault) -> Result<Written, Stop>
    requires { IsKnownFault names.now fault }
    ensures right { IfOk result (λ written. TellsStop (stop_of names.now fault) (reply_seen written)) }
    ensures read { IsErrOf result Stop.ReadFault ↔ (fault ≡ PreFault.ReadFault) }
{
    match fault {
        PreFault::Error(kind, place, word, path) => {
            Ok(error(alloc, names, kind, path, place, word)?)
        }
        PreFault::Limit(kind) => Ok(limit(alloc, kind)?),
        PreFault::ReadFault => Err(Stop::ReadFault),
        PreFault::Memory => Err(Stop::NoMemory),
    }
}
