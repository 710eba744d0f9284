// Words in, the path and the options that they ask for out, or their fault. No file is loaded here.
ghost use Rattle.std.specs.Prelude.{◌≡◌, IfOk, IfErr};
ghost use Rattle.meaning_answer.specs.Options as meaning;
ghost use Rattle.meaning_answer.specs.Requests.{request_of};
ghost use Rattle.ksparse.specs.Reading.{begins_with_command};
ghost use Rattle.ksparse.specs.Words.{EachStandsOnce, IsFaultOf, options_in, request_seen};

use crate::option::read_word;
use crate::reading::Reading;
use sparse_model::{Bytes, Options};
use sparse_outside::Words;
use std::alloc::{AllocError, Global};
use thiserror::Error;

/// What the words of a command ask for.
#[derive(Drop)]
pub enum Command {
    /// Check a file.
    Check { options: Options, file: Bytes },
    /// Write the tokens of a file.
    Expand { options: Options, file: Bytes },
}

/// Why words are no command.
#[derive(Clone, Copy, Debug, PartialEq, Eq, Error)]
pub enum WordFault {
    #[error("bad word at position {0}")]
    BadWord(usize),
    #[error("missing file")]
    MissingFile,
    #[error("out of memory")]
    Memory,
}

impl From<AllocError> for WordFault {
    ghost use Rattle.std.specs.Prelude.{◌≡◌};
    ghost use Rattle.ksparse.specs.declared.command.WordFault.TheVariants.{Memory};

    ghost from_gives = { λ _ fault. fault ≡ Memory };

    fn from(_error: AllocError) -> Self {
        WordFault::Memory
    }
}

/// Reads the words of a command: one operand, the file, and options in any order.
pub fn read_words(alloc: Global, words: &Words) -> Result<Command, WordFault>
    ensures command { IfOk result (λ command. request_seen command ≡ request_of words.now) }

    // Each class that is on stands once.
    ensures once { IfOk result (λ command. EachStandsOnce (options_in command).classes) }
    ensures fault { IfErr result (IsFaultOf words.now) }
{
    if begins_with_command(words) {
        return Err(WordFault::BadWord(0));
    }
    let mut reading = Reading::new(alloc);
    let mut position = 0;
    'words: while let Some(text) = words.get(position) {
        let word = read_word(text);
        if reading.refuses(&word) {
            return Err(WordFault::BadWord(position));
        }
        reading.take(alloc, text, &word)?;
        prove!(position < words.len());
        position += 1;
    }
    reading.into_command(alloc)
}

// The first word selects another command.
fn begins_with_command(words: &Words) -> bool
    ensures { result ≡ begins_with_command words.now }
{
    match words.get(0) {
        Some(word) => is_command(word),
        None => false,
    }
}

fn is_command(word: &[u8]) -> bool
    ensures { result ≡ meaning.is_command word.now }
{
    word == b"eval".as_slice()
        || word == b"gen".as_slice()
        || word == b"link".as_slice()
        || word == b"index".as_slice()
        || word == b"annotate".as_slice()
}
