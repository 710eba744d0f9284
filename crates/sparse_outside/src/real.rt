// Files and a sink over the system. They are trusted to read and write what they say.
ghost use Rattle.std.specs.Prelude.{◌≡◌, ◌≢◌, ◌≤◌, ◌<◌, ◌+◌, [], ◌∷◌, ◌++◌, length, vec_len, None, IfSome};
ghost use Rattle.std.specs.Str.{IsUtf8};
ghost use Rattle.meaning_outside.specs.Faults.{Told};
ghost use Rattle.sparse_outside.specs.Load.{LeavesBuffer, loaded};
ghost use Rattle.sparse_outside.specs.Put.{Puts, taken_of};

use crate::files::{Files, Load};
use crate::sink::{Put, Sink};
use crate::trace::{EndedLoad, EndedPut, LoadTrace, TakenTrace};
use std::io::{ErrorKind, Read, Write};
use std::marker::Model;
use std::{fs, rt, str};

/// The files of the system, which tell no content, seen as what their loads gave and the count of their faults.
#[derive(Drop)]
pub struct RealFiles<'a, R> {
    system: &'a R,
    faults: u64,
    trace: LoadTrace,
}

impl<'a, R> Model for RealFiles<'a, R> {
    ghost use Rattle.sparse_outside.specs.Real.{RealFilesState, real_files_state_code};

    ghost Value = { RealFilesState };

    ghost coded = { real_files_state_code };

    ghost view = { λ files. record { trace = files.trace.loads; faults = files.faults } };
}

impl<'a, R: rt::Files> RealFiles<'a, R> {
    /// The files of this system.
    pub fn new(rt: &'a R) -> Self
        ensures { result ≡ record { trace = []; faults = 0 } }
    {
        RealFiles {
            system: rt,
            faults: 0,
            trace: LoadTrace::new(),
        }
    }
}

impl<R: rt::Files> Files for RealFiles<'_, R> {
    ghost holds = { λ _. None };

    ghost loads = { λ files. files.trace };

    ghost faults = { λ files. files.faults };

    fn load(&mut self, path: &[u8], max: usize, into: &mut Vec<u8>) -> Load
        requires { into.old.items ≡ [] }
        ensures answer { LeavesBuffer max result into.new.items }
        ensures trace { self.new.trace ≡ self.old.trace ++ loaded path.now max result into.new.items ∷ [] }
        ensures cause { Told self.old.faults self.new.faults (result ≡ Load.Failed) }
        ensures once { self.new.faults ≤ self.old.faults + 1 }
        ensures no_text { ¬ (IsUtf8 path.now) → result ≡ Load.Missing }
    {
        let answer = load_from(self.system, path, max, into);
        if answer == Load::Failed {
            self.faults = self.faults.saturating_add(1);
        }
        self.trace = self.trace.then(&EndedLoad {
            path,
            max,
            answer,
            into: into.as_slice(),
        });
        answer
    }
}

// Loads a file of the system. An open that finds none answers so, and any other error is a fault.
fn load_from<R: rt::Files>(system: &R, path: &[u8], max: usize, into: &mut Vec<u8>) -> Load
    requires { into.old.items ≡ [] }
    ensures buffer { LeavesBuffer max result into.new.items }
    ensures no_text { ¬ (IsUtf8 path.now) → result ≡ Load.Missing }
{
    let Ok(path) = str::from_utf8(path) else {
        return Load::Missing;
    };
    let mut file = match fs::open(system, path) {
        Ok(file) => file,
        Err(error) if error.kind() == ErrorKind::NotFound => return Load::Missing,
        Err(_) => return Load::Failed,
    };
    read_or_clear(&mut file, max, into)
}

// Reads all that is left of a file into the buffer, or leaves the buffer empty.
fn read_or_clear<F: Read>(file: &mut F, max: usize, into: &mut Vec<u8>) -> Load
    requires { into.old.items ≡ [] }
    ensures buffer { LeavesBuffer max result into.new.items }
    ensures whole { result ≡ Load.Whole →
        IfSome (F.remaining file.old) (λ bytes. into.new.items ≡ bytes) }
    ensures too_long { result ≡ Load.TooLong →
        IfSome (F.remaining file.old) (λ bytes. max < length bytes) }
    ensures found { result ≢ Load.Missing }
{
    let answer = read_whole(file, max, into);
    if answer != Load::Whole {
        into.clear();
    }
    answer
}

// How many bytes are asked of a file at a time.
const PIECE: usize = 16 * 1024;

// Reads all that is left of a file, or one byte more than `max`.
fn read_whole<F: Read>(file: &mut F, max: usize, into: &mut Vec<u8>) -> Load
    requires { into.old.items ≡ [] }
    ensures whole { result ≡ Load.Whole →
        IfSome (F.remaining file.old) (λ bytes. into.new.items ≡ bytes) }
    ensures within { result ≡ Load.Whole → vec_len into.new ≤ max }
    ensures too_long { result ≡ Load.TooLong →
        IfSome (F.remaining file.old) (λ bytes. max < length bytes) }
    ensures most { vec_len into.new ≤ max + 1 }
    ensures found { result ≢ Load.Missing }
{
    let mut buffer = [0; PIECE];
    while into.len() <= max {
        let room = (max - into.len()).saturating_add(1).min(PIECE);
        let piece = &mut buffer[..room];
        let Ok(count) = file.read(piece) else {
            return Load::Failed;
        };
        if count == 0 {
            return Load::Whole;
        }
        if into.extend_from_slice(&piece[..count]).is_err() {
            return Load::NoMemory;
        }
    }
    Load::TooLong
}

/// A writer as a sink, seen as what the writer holds, where it tells, what puts said they took, and the count
/// of its faults.
#[derive(Drop)]
pub struct RealSink<W: Write> {
    writer: W,
    faults: u64,
    trace: TakenTrace,
}

impl<W: Write> Model for RealSink<W> {
    ghost use Rattle.sparse_outside.specs.Real.{RealSinkState, real_sink_state_code};

    ghost Value = { RealSinkState };

    ghost coded = { real_sink_state_code };

    ghost view = { λ sink. record {
      written = W.contents sink.writer;
      taken = sink.trace.bytes;
      faults = sink.faults;
    } };
}

impl<W: Write + Drop> RealSink<W> {
    /// A sink over this writer, which it does not flush.
    pub fn new(w: W) -> Self
        ensures { result ≡ record { written = W.contents w; taken = []; faults = 0 } }
    {
        RealSink {
            writer: w,
            faults: 0,
            trace: TakenTrace::new(),
        }
    }
}

impl<W: Write + Drop> Sink for RealSink<W> {
    ghost written = { λ sink. sink.written };

    ghost taken = { λ sink. sink.taken };

    ghost faults = { λ sink. sink.faults };

    fn put(&mut self, piece: &[u8]) -> Put
        requires { 0 < length piece.now }
        ensures bytes { Puts self.old.written self.new.written piece.now result }
        ensures takes { self.new.taken ≡ self.old.taken ++ taken_of piece.now result }
        ensures cause { Told self.old.faults self.new.faults (result ≡ Put.Failed) }
        ensures once { self.new.faults ≤ self.old.faults + 1 }
    {
        let answer = write_front(&mut self.writer, piece);
        if answer == Put::Failed {
            self.faults = self.faults.saturating_add(1);
        }
        self.trace = self.trace.then(&EndedPut { piece, answer });
        answer
    }
}

// Writes a front of the piece. A write that takes nothing is a fault.
fn write_front<W: Write>(writer: &mut W, piece: &[u8]) -> Put
    requires { 0 < length piece.now }
    ensures { Puts (W.contents writer.old) (W.contents writer.new) piece.now result }
{
    match writer.write(piece) {
        Ok(count) if count > 0 => Put::Took(count),
        _ => Put::Failed,
    }
}
