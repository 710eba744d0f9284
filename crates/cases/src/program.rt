// The programs that a command can name.
use ksparse::{Exit, ksparse};
use sparse_outside::{HonestFiles, MemorySink, Sink, Words};
use std::alloc::{AllocError, Global};
use unit_commands::{Command, show};
use workbench::{Stop, workbench};

/// A program, each over a public call. A further one has its variant here, its name and its call.
#[derive(Clone, Copy)]
pub enum Program {
    /// The checker, over its top call.
    Ksparse,
    /// The flows of a file's functions, as developers see them.
    Lowered,
    /// The tree of a file, as developers see it.
    Trees,
    /// The types of a file's expressions, as developers see them.
    Types,
    /// Calls of libraries that no command of the checker makes yet. Why there is no text isn't written.
    Workbench,
}

/// What a command left.
#[derive(Drop)]
pub struct Ran {
    /// How it ended.
    pub exit: Exit,
    /// Its status.
    pub status: u8,
    /// What it wrote to standard output.
    pub out: MemorySink,
    /// What it wrote to standard error.
    pub err: MemorySink,
}

// Room for each of the texts that a command writes.
const ROOM: usize = 1_048_576;

impl Program {
    /// The program with this name.
    pub fn named(name: &str) -> Option<Self> {
        match name {
            "ksparse" => Some(Program::Ksparse),
            "lowered" => Some(Program::Lowered),
            "trees" => Some(Program::Trees),
            "types" => Some(Program::Types),
            "workbench" => Some(Program::Workbench),
            _ => None,
        }
    }

    /// Runs the program with these words over these files.
    pub fn run(
        self,
        alloc: Global,
        words: &Words,
        files: &mut HonestFiles,
    ) -> Result<Ran, AllocError> {
        let mut out = MemorySink::new(alloc, ROOM)?;
        let mut err = MemorySink::new(alloc, ROOM)?;
        let exit = match self {
            Program::Ksparse => ksparse(alloc, words, files, &mut out, &mut err),
            Program::Lowered => show(alloc, Command::Lowered, words, files, &mut out, &mut err),
            Program::Trees => show(alloc, Command::Trees, words, files, &mut out, &mut err),
            Program::Types => show(alloc, Command::Types, words, files, &mut out, &mut err),
            Program::Workbench => run_workbench(alloc, words, files, &mut out),
        };
        Ok(Ran {
            exit,
            status: exit.status(),
            out,
            err,
        })
    }
}

// Runs a command of the workbench, and says how it ended as the checker would.
fn run_workbench(
    alloc: Global,
    words: &Words,
    files: &mut HonestFiles,
    out: &mut MemorySink,
) -> Exit {
    match workbench(alloc, words, files) {
        Ok(text) => {
            if !text.is_empty() {
                out.put(text.as_slice());
            }
            Exit::Clean
        }
        Err(Stop::Usage) => Exit::Usage,
        Err(Stop::NoFile) => Exit::Refused,
        Err(Stop::ReadFault) => Exit::ReadFault,
        Err(Stop::NoMemory) => Exit::NoMemory,
    }
}
