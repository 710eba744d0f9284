//! The preprocessed unit: the tokens that a compiler sees of a file.
ghost use Rattle.std.specs.Prelude.{◌≡◌, ◌<◌, ◌^◌, length, IfErr, IfOk, IfSome, IsErrOf};
ghost use Rattle.meaning_outside.specs.Faults.{Told};
ghost use Rattle.meaning_outside.specs.Files.{FileMap};
ghost use Rattle.meaning_outside.specs.Loads.{AgreesWith, EachPathIsLoadedOnce, LoadsStay, loads_since};
ghost use Rattle.c_tokens.specs.Seen.{Extends};
ghost use Rattle.c_preproc.specs.States.{IsKnownFault};
ghost use Rattle.c_preproc.specs.Units.{EndsEarlySo, IsKnownUnit, IsUnit, failures_from, options_seen};

use crate::first_state::first_state;
use crate::kept::Kept;
use crate::pre_fault::PreFault;
use crate::state::State;
use c_tokens::{Names, Token, TokenList};
use sparse_model::{Failure, FailureList, FileNames, Options, RuleCode};
use sparse_outside::Files;
use std::alloc::{AllocError, Global};

// For the text of the options there is room below this many bytes.
const MOST_COMMANDS: usize = 1 << 30;

/// The tokens of a file with those that it includes, behind its directives and with its macros replaced.
#[derive(Drop)]
pub struct UnitTokens {
    pub tokens: TokenList,
    /// A failure for each identifier that was left in the line of an `#if` or `#elif`, which are no tokens of the
    /// unit: the one with number k has token k, and that is the one with number k of `undef_tokens`.
    pub undefs: FailureList,
    pub undef_tokens: TokenList,
    /// The paths of the files: number 0 is `<command>`, and number 1 the file itself.
    pub files: FileNames,
}

/// The preprocessed unit of the file with the path `main` (C11 5.1.1.2 phases 3 and 4), behind the text of the options.
///
/// # Errors
/// `Error` with the first error, and `Limit` with the first limit that is passed. `ReadFault` where a load failed. `Memory` for
/// want of memory, and for a text of the options of 2^30 bytes or more, for which there is no room.
pub fn preprocess<F: Files>(
    alloc: Global,
    options: &Options,
    files: &mut F,
    names: &mut Names,
    main: &[u8],
) -> Result<UnitTokens, PreFault>
    // Over each map of files that agrees with all that this call loaded, it is the unit of the path.
    ensures unit { IfOk result (λ unit. (map : FileMap) → AgreesWith map (loads_since (F.loads files.old) (F.loads files.new))
        → IsUnit (options_seen options.now) map main.now names.new unit) }

    // Over each such map the unit ends as the fault says.
    ensures fault { IfErr result (λ fault. (map : FileMap) → AgreesWith map (loads_since (F.loads files.old) (F.loads files.new))
        → EndsEarlySo (options_seen options.now) map main.now names.new fault) }

    ensures undefs { IfOk result (λ unit. unit.undefs ≡ failures_from 0 unit.undef_tokens) }

    // What was loaded stays, and no path is loaded twice. Where the files tell a map, it agrees.
    ensures stay { LoadsStay (F.loads files.old) (F.loads files.new) }
    ensures once { EachPathIsLoadedOnce (loads_since (F.loads files.old) (F.loads files.new)) }
    ensures told { IfSome (F.holds files.old) (λ map. AgreesWith map (loads_since (F.loads files.old) (F.loads files.new))) }

    // A fault of reading is told exactly by the count.
    ensures cause { Told (F.faults files.old) (F.faults files.new) (IsErrOf result PreFault.ReadFault) }

    // The files hold what they held, old ids keep their spelling, and each id of an answer is one of the table.
    ensures holds { F.holds files.new ≡ F.holds files.old }
    ensures keeps { Extends names.old names.new }
    ensures known { IfOk result (IsKnownUnit names.new) }
    ensures known_fault { IfErr result (IsKnownFault names.new) }
{
    let text = options.commands.as_slice();
    if text.len() >= MOST_COMMANDS {
        return Err(PreFault::Memory);
    }
    let mut state = first_state(alloc, names, main)?;
    let mut kept = Kept::new(alloc);
    let directories = options.dirs.as_slice();
    match state.read_command(alloc, names, files, directories, &mut kept, text) {
        Ok(()) => match state.read_main(alloc, names, files, directories, &mut kept, main) {
            Ok(()) => Ok(state.into_unit(alloc)?),
            Err(fault) => Err(fault),
        },
        Err(fault) => Err(fault),
    }
}

impl State {
    // The unit that was read.
    fn into_unit(self, alloc: Global) -> Result<UnitTokens, AllocError>
        ensures tokens { IfOk result (λ unit. unit.tokens ≡ self.tokens.items) }
        ensures undef_tokens { IfOk result (λ unit. unit.undef_tokens ≡ self.undefined.items) }
        ensures undefs { IfOk result (λ unit. unit.undefs ≡ failures_from 0 self.undefined.items) }
        ensures files { IfOk result (λ unit. unit.files ≡ self.paths.items) }
    {
        let undefs = failures_of(alloc, self.undefined.as_slice())?;
        let State {
            made: _,
            macros: _,
            budget: _,
            bytes: _,
            paths,
            undefined,
            tokens,
        } = self;
        Ok(UnitTokens {
            tokens: TokenList::from_vec(tokens),
            undefs: FailureList::from_vec(undefs),
            undef_tokens: TokenList::from_vec(undefined),
            files: FileNames::from_vec(paths),
        })
    }
}

// A failure for each of the tokens, by its number.
fn failures_of(alloc: Global, tokens: &[Token]) -> Result<Vec<Failure>, AllocError>
    ensures { IfOk result (λ failures. failures.items ≡ failures_from 0 tokens.now) }
{
    let mut failures = Vec::new(alloc);
    let mut number: u32 = 0;
    let mut left = tokens;
    'tokens: while let Some((token, others)) = left.split_first() {
        failures.push(Failure {
            token: number,
            rule: RuleCode::S3,
            part: 0,
            first: None,
            second: None,
            name: token.name,
            number: 0,
            wanted: 0,
        })?;
        let Some(next) = number.checked_add(1) else {
            return Err(AllocError);
        };
        number = next;
        left = others;
    }
    Ok(failures)
}
