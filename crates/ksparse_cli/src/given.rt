// The words of the command, out of those that the system gives.
ghost use Rattle.std.specs.Prelude.{◌≡◌, ◌↔◌, drop, map, string_bytes, IfOk, IsErrAnd, IsErrOf, IsOkAnd};
ghost use Rattle.std.specs.IoError.{error_kind};
ghost use Rattle.std.specs.Vec.Iter.{into_iter_items};

use sparse_outside::Words;
use std::alloc::{AllocError, Global};
use std::env::Args;
use std::io::{self, ErrorKind};

/// Why there are no words.
#[derive(Clone, Copy)]
pub enum NoWords {
    /// A word isn't UTF-8.
    NotText,
    NoMemory,
}

/// The words behind the program's name, where the system gives all of them.
pub fn command_words(alloc: Global, given: io::Result<Args>) -> Result<Words, NoWords>
    ensures given { IfOk result (λ words. IsOkAnd given (λ args. words ≡ drop 1 (map string_bytes (into_iter_items args)))) }
    ensures not_text { IsErrOf result NoWords.NotText ↔ IsErrAnd given (λ error. error_kind error ≡ ErrorKind.InvalidData) }
{
    match given {
        Ok(args) => words_behind_name(alloc, args).map_err(|_| NoWords::NoMemory),
        Err(error) if error.kind() == ErrorKind::InvalidData => Err(NoWords::NotText),
        Err(_) => Err(NoWords::NoMemory),
    }
}

// All words but the first, which is the program's name.
fn words_behind_name(alloc: Global, mut args: Args) -> Result<Words, AllocError>
    ensures { IfOk result (λ words. words ≡ drop 1 (map string_bytes (into_iter_items args))) }
{
    let mut words = Words::new(alloc);
    args.next();
    while let Some(word) = args.next() {
        words.push(word.as_bytes())?;
    }
    Ok(words)
}
