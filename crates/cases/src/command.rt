// A command of an archive, and what is expected of it.
use crate::escapes::unescaped;
use crate::program::Program;
use sparse_outside::Words;
use std::alloc::{AllocError, Global};

/// What a command leaves, as sections name it.
#[derive(Clone, Copy, PartialEq, Eq)]
pub enum Stream {
    /// What it wrote to standard output.
    Out,
    /// What it wrote to standard error.
    Err,
    /// Its status, in decimal, and a new-line.
    Status,
}

impl Stream {
    /// What the section of this name expects, where it is no file.
    pub fn named(name: &str) -> Option<Self> {
        match name {
            "out" => Some(Stream::Out),
            "err" => Some(Stream::Err),
            "status" => Some(Stream::Status),
            _ => None,
        }
    }

    /// The name of its section.
    pub fn name(self) -> &'static str {
        match self {
            Stream::Out => "out",
            Stream::Err => "err",
            Stream::Status => "status",
        }
    }
}

/// What is expected of a command.
#[derive(Drop)]
pub struct Expected {
    /// On standard output.
    pub out: Option<Vec<u8>>,
    /// On standard error.
    pub err: Option<Vec<u8>>,
    /// As its status.
    pub status: Option<Vec<u8>>,
}

impl Expected {
    /// Nothing is expected yet.
    pub fn new() -> Self {
        Expected {
            out: None,
            err: None,
            status: None,
        }
    }

    /// What is expected there, where a section said so.
    pub fn of(&mut self, stream: Stream) -> &mut Option<Vec<u8>> {
        match stream {
            Stream::Out => &mut self.out,
            Stream::Err => &mut self.err,
            Stream::Status => &mut self.status,
        }
    }
}

/// A command, the line where it stands, and what is expected of it.
#[derive(Drop)]
pub struct Command {
    /// The line, counted from 1.
    pub line: usize,
    /// The program that it runs.
    pub program: Program,
    /// The words behind the program's name.
    pub words: Words,
    /// What is expected of it.
    pub expected: Expected,
}

/// Reads words that are parted by single spaces, or none where an escape is none or a word is missing.
pub fn read_words(alloc: Global, text: &str) -> Result<Option<Words>, AllocError> {
    let mut words = Words::new(alloc);
    for word in text.split(' ') {
        if word.is_empty() {
            return Ok(None);
        }
        let Some(word) = unescaped(alloc, word.as_bytes())? else {
            return Ok(None);
        };
        words.push(word.as_slice())?;
    }
    Ok(Some(words))
}
