// A command: a tool over a file, to a text. Who writes it isn't known here.
ghost use Rattle.std.specs.Prelude.{◌≡◌, IsErrOf};
ghost use Rattle.meaning_outside.specs.Faults.{Told};
ghost use Rattle.workbench.specs.Asked.{MayRun};

use crate::tool::Tool;
use crate::units::{View, preprocessed};
use sparse_outside::{Files, Load, Words, load_leaves_buffer};
use std::alloc::{AllocError, Global};
use thiserror::Error;

/// The most bytes that a file may have.
const MOST_BYTES: usize = 67_108_864;

/// Why there is no text.
#[derive(Clone, Copy, Debug, Error)]
pub enum Stop {
    #[error("usage: workbench TOOL FILE, where TOOL is if_value, scopes, types, constants, attributes, context_changes, preprocess, left_names or texts, or workbench expand FILE [replacements=N] [tokens=N] [counter=N] [spelled=TEXT] [places]")]
    Usage,
    #[error("no such file, or more than 67108864 bytes")]
    NoFile,
    #[error("reading failed")]
    ReadFault,
    #[error("out of memory")]
    NoMemory,
}

impl From<AllocError> for Stop {
    ghost use Rattle.std.specs.Prelude.{◌≡◌};
    ghost use Rattle.workbench.specs.declared.command.Stop.TheVariants.{NoMemory};

    ghost from_gives = { λ _ stop. stop ≡ NoMemory };

    fn from(_error: AllocError) -> Self {
        Stop::NoMemory
    }
}

/// What the tool that the first word names makes of the file that the second one names. Further words say
/// what is asked of it.
///
/// # Errors
/// `Usage` where the words aren't these; `NoFile`; `ReadFault` exactly where the count of faults rose;
/// `NoMemory`.
pub fn workbench<F: Files>(alloc: Global, words: &Words, files: &mut F) -> Result<Vec<u8>, Stop>
    ensures read { Told (F.faults files.old) (F.faults files.new) (IsErrOf result Stop.ReadFault) }
    ensures keeps { F.holds files.new ≡ F.holds files.old }
{
    let (Some(name), Some(path)) = (words.get(0), words.get(1)) else {
        return Err(Stop::Usage);
    };
    if words.len() == 2 {
        if name == b"preprocess".as_slice() {
            return preprocessed(alloc, View::Text, path, files);
        }
        if name == b"left_names".as_slice() {
            return preprocessed(alloc, View::LeftNames, path, files);
        }
        if name == b"texts".as_slice() {
            return preprocessed(alloc, View::Texts, path, files);
        }
    }
    let Some(tool) = Tool::read(words) else {
        return Err(Stop::Usage);
    };
    run(alloc, tool, path, files)
}

// What the tool makes of the file at this path.
fn run<F: Files>(alloc: Global, tool: Tool<'_>, path: &[u8], files: &mut F) -> Result<Vec<u8>, Stop>
    requires { MayRun tool }
    ensures read { Told (F.faults files.old) (F.faults files.new) (IsErrOf result Stop.ReadFault) }
    ensures keeps { F.holds files.new ≡ F.holds files.old }
{
    load_leaves_buffer();
    let mut text = Vec::new(alloc);
    match files.load(path, MOST_BYTES, &mut text) {
        Load::Whole => Ok(tool.run(alloc, &text)?),
        Load::Missing | Load::TooLong => Err(Stop::NoFile),
        Load::Failed => Err(Stop::ReadFault),
        Load::NoMemory => Err(Stop::NoMemory),
    }
}
