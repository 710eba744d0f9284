// The command: the flows of a file to their answers. Who writes them isn't known here.
ghost use Rattle.std.specs.Prelude.{◌≡◌, ◌++◌, IsErrOf, OnOk, Some, codes};
ghost use Rattle.meaning_outside.specs.Faults.{Told};
ghost use Rattle.meaning_outside.specs.Files.{FileMap, file_at};
ghost use Rattle.flows.specs.Shown.{shown_place, stop_text};
ghost use Rattle.flows.specs.Files.{IsFileAnswered};

use crate::text::push_answers;
use crate::wrong::Place;
use control_flow::push_number;
use sparse_outside::{Files, Load, load_leaves_buffer};
use std::alloc::{AllocError, Global};

/// The most bytes that a file may have.
const MOST_BYTES: usize = 1_073_741_824;

/// Why the answers end where they do.
#[derive(Clone, Copy)]
pub enum Stop {
    /// The line at this place isn't in the notation, or its flow isn't one that is walked.
    Wrong(Place),
    NoFile,
    ReadFault,
    NoMemory,
}

/// Appends the answers to the flows of the file at this path, a line each, up to the first line that has none.
///
/// # Errors
/// `Wrong` at that line; `NoFile`; `ReadFault` exactly where the count of faults rose; `NoMemory`.
pub fn flow_answers<F: Files>(
    shown: &mut Vec<u8>,
    alloc: Global,
    path: &[u8],
    files: &mut F,
) -> Result<(), Stop>
    ensures shown { (map : FileMap) → F.holds files.old ≡ Some map → IsFileAnswered (file_at map path.now) shown.old.items shown.new.items result }
    ensures read { Told (F.faults files.old) (F.faults files.new) (IsErrOf result Stop.ReadFault) }
    ensures keeps { F.holds files.new ≡ F.holds files.old }
{
    load_leaves_buffer();
    let mut text = Vec::new(alloc);
    match files.load(path, MOST_BYTES, &mut text) {
        Load::Whole => {}
        Load::Missing | Load::TooLong => return Err(Stop::NoFile),
        Load::Failed => return Err(Stop::ReadFault),
        Load::NoMemory => return Err(Stop::NoMemory),
    }
    match push_answers(shown, alloc, &text) {
        Ok(None) => Ok(()),
        Ok(Some(place)) => Err(Stop::Wrong(place)),
        Err(_) => Err(Stop::NoMemory),
    }
}

/// Appends what is told of a stop, in a line.
pub fn push_stop(text: &mut Vec<u8>, path: &[u8], stop: Stop) -> Result<(), AllocError>
    ensures { OnOk result (text.new.items ≡ text.old.items ++ path.now ++ stop_text stop ++ codes "\n") }
{
    text.extend_from_slice(path)?;
    push_reason(text, stop)?;
    text.extend_from_slice(b"\n")
}

fn push_reason(text: &mut Vec<u8>, stop: Stop) -> Result<(), AllocError>
    ensures { OnOk result (text.new.items ≡ text.old.items ++ stop_text stop) }
{
    match stop {
        Stop::Wrong(place) => push_place(text, place),
        Stop::NoFile => text.extend_from_slice(b": no such file, or more than 1073741824 bytes"),
        Stop::ReadFault => text.extend_from_slice(b": reading failed"),
        Stop::NoMemory => text.extend_from_slice(b": out of memory"),
    }
}

fn push_place(text: &mut Vec<u8>, place: Place) -> Result<(), AllocError>
    ensures { OnOk result (text.new.items ≡ text.old.items ++ shown_place place) }
{
    push_number(text, b":", place.line as u64)?;
    push_number(text, b":", place.column as u64)?;
    text.extend_from_slice(b": ")?;
    text.extend_from_slice(place.wrong.text())
}
