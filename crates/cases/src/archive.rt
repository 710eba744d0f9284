// An archive: its sections and commands in order, and what its commands leave.
use crate::command::{Command, Expected, Stream, read_words};
use crate::compare::difference;
use crate::escapes::unescaped;
use crate::line::Line;
use crate::program::Program;
use anyhow::Result;
use bstr::ByteSlice;
use ksparse::Exit;
use sparse_outside::{HonestFiles, Words};
use std::alloc::{AllocError, Global};
use std::mem::replace;

/// What a run of an archive showed.
#[derive(Drop)]
pub struct Shown {
    /// What is amiss, in lines; nothing where each command left what is expected of it.
    pub amiss: String,
    /// How the commands ended, in order.
    pub endings: Vec<Exit>,
}

// A line that begins a section or a command, its number, and the lines behind it.
#[derive(Drop)]
struct Part<'a> {
    number: usize,
    line: Line<'a>,
    text: String,
}

// A file that no command has seen yet, and the number of its section's line.
#[derive(Drop)]
struct Unseen {
    number: usize,
    name: Vec<u8>,
}

// A run of an archive, as far as it has come.
#[derive(Drop)]
struct Bench<'a> {
    alloc: Global,
    archive: &'a str,
    files: HonestFiles,
    unseen: Vec<Unseen>,
    command: Option<Command>,
    shown: Shown,
}

/// Runs the commands of the archive with this name and this text.
pub fn run_archive(alloc: Global, archive: &str, text: &str) -> Result<Shown> {
    let mut bench = Bench {
        alloc,
        archive,
        files: HonestFiles::new(alloc),
        unseen: Vec::new(alloc),
        command: None,
        shown: Shown {
            amiss: String::new(alloc),
            endings: Vec::new(alloc),
        },
    };
    if !text.ends_with('\n') {
        bench.tell(1, "the last line has no new-line")?;
    }
    let parts = parts(alloc, text)?;
    for part in &parts {
        bench.take(part)?;
    }
    bench.end()?;
    bench.tell_unnamed(parts.as_slice())?;
    Ok(bench.shown)
}

// The parts of a text. The first one is its comment, which no line begins.
fn parts<'a>(alloc: Global, text: &'a str) -> Result<Vec<Part<'a>>, AllocError> {
    let mut parts = Vec::new(alloc);
    let mut part = Part {
        number: 1,
        line: Line::Text,
        text: String::new(alloc),
    };
    for (above, line) in text.split_inclusive('\n').enumerate() {
        match Line::read(line.strip_suffix('\n').unwrap_or(line)) {
            Line::Text => part.text.push_str(line)?,
            head => {
                parts.push(part)?;
                part = Part {
                    number: above.saturating_add(1),
                    line: head,
                    text: String::new(alloc),
                };
            }
        }
    }
    parts.push(part)?;
    Ok(parts)
}

impl<'a> Part<'a> {
    // The last part of the path of the file that begins here, as it is written, where one does.
    fn file(&self) -> Option<&'a str> {
        match self.line {
            Line::Section(name) | Line::Escaped(name) if Stream::named(name).is_none() => {
                Some(
                    name.rsplit_once('/')
                        .map_or(name, |(_directories, name)| name),
                )
            }
            _ => None,
        }
    }

    // Whether a file or a command says this name.
    fn names(&self, file: &[u8]) -> bool {
        match self.line {
            Line::Command(line) => line.as_bytes().contains_str(file),
            Line::Section(_) | Line::Escaped(_) => self.text.as_bytes().contains_str(file),
            Line::NoSection | Line::Text => false,
        }
    }
}

impl<'a> Bench<'a> {
    // Tells what is amiss in the line with this number.
    fn tell(&mut self, number: usize, what: &str) -> Result<(), AllocError> {
        let archive = self.archive;
        writeln!(self.shown.amiss, "{archive}:{number}: {what}")
    }

    // Does what a part says.
    fn take(&mut self, part: &Part) -> Result<()> {
        let text = part.text.as_str();
        match part.line {
            Line::Text if text.trim().is_empty() => self.tell(1, "no comment")?,
            Line::Text => {}
            Line::NoSection => self.tell(part.number, "no section begins so")?,
            Line::Command(command) => self.open(part.number, command, text)?,
            Line::Section(name) => {
                let text = Vec::from_slice(self.alloc, text.as_bytes())?;
                self.hold(part.number, name, text)?;
            }
            Line::Escaped(name) => match unescaped(self.alloc, text.as_bytes())? {
                Some(text) => self.hold(part.number, name, text)?,
                None => self.tell(part.number, "a bad escape in the section")?,
            },
        }
        Ok(())
    }

    // Takes the section of this name: what is expected of the command above, or a file.
    fn hold(&mut self, number: usize, name: &str, text: Vec<u8>) -> Result<()> {
        if let Some(stream) = Stream::named(name) {
            return Ok(self.expect(number, stream, text)?);
        }
        self.finish()?;
        let Some(name) = unescaped(self.alloc, name.as_bytes())? else {
            return Ok(self.tell(number, "a bad escape in the name")?);
        };
        if self
            .unseen
            .iter()
            .any(|file| file.name.as_slice() == name.as_slice())
        {
            self.tell(number, "no command saw the file of this name before it")?;
        }
        self.files.add(name.as_slice(), text.as_slice())?;
        self.unseen.push(Unseen { number, name })?;
        Ok(())
    }

    // Takes what is expected of the command above.
    fn expect(&mut self, number: usize, stream: Stream, text: Vec<u8>) -> Result<(), AllocError> {
        let Some(mut command) = self.command.take() else {
            return self.tell(number, "expected of no command");
        };
        let expected = command.expected.of(stream);
        let is_first = expected.is_none();
        *expected = Some(text);
        self.command = Some(command);
        if is_first {
            Ok(())
        } else {
            self.tell(number, "expected twice")
        }
    }

    // Opens a command, behind which a section has to stand, or another command.
    fn open(&mut self, number: usize, line: &str, behind: &str) -> Result<()> {
        self.finish()?;
        if !behind.is_empty() {
            self.tell(number.saturating_add(1), "a line of no section")?;
        }
        self.unseen.clear();
        let (line, _shows) = line.split_once(" # ").unwrap_or((line, ""));
        let (name, words) = match line.split_once(' ') {
            Some((name, words)) => (name, read_words(self.alloc, words)?),
            None => (line, Some(Words::new(self.alloc))),
        };
        let Some(program) = Program::named(name) else {
            return Ok(self.tell(number, "no such program")?);
        };
        let Some(words) = words else {
            return Ok(self.tell(number, "words that can't be read")?);
        };
        self.command = Some(Command {
            line: number,
            program,
            words,
            expected: Expected::new(),
        });
        Ok(())
    }

    // Runs the command that is open, over the files that stand before it.
    fn finish(&mut self) -> Result<()> {
        let Some(command) = self.command.take() else {
            return Ok(());
        };
        let ran = command
            .program
            .run(self.alloc, &command.words, &mut self.files)?;
        if ran.exit == Exit::NoMemory {
            // It is no answer, whatever is expected.
            self.tell(command.line, "out of memory")?;
        } else if let Some(difference) = difference(self.alloc, &command.expected, &ran)? {
            self.tell(command.line, difference.as_str())?;
        }
        self.shown.endings.push(ran.exit)?;
        Ok(())
    }

    // Tells each file whose name nothing says, as that of a section with a misspelled name.
    fn tell_unnamed(&mut self, parts: &[Part]) -> Result<(), AllocError> {
        for part in parts {
            let Some(written) = part.file() else {
                continue;
            };
            let Some(name) = unescaped(self.alloc, written.as_bytes())? else {
                continue;
            };
            let written = written.as_bytes();
            if !parts.iter().any(|other| other.names(written) || other.names(name.as_slice())) {
                self.tell(part.number, "nothing names the file")?;
            }
        }
        Ok(())
    }

    // Ends the run behind the last part.
    fn end(&mut self) -> Result<()> {
        self.finish()?;
        let unseen = replace(&mut self.unseen, Vec::new(self.alloc));
        for file in &unseen {
            self.tell(file.number, "no command sees the file")?;
        }
        if self.shown.endings.is_empty() {
            self.tell(1, "no command")?;
        }
        Ok(())
    }
}
