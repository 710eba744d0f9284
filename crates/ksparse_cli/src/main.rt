//! The program `ksparse`: the top call over the files of the system, standard output and standard error.
#![tactic(auto)]

ghost use Rattle.std.specs.Prelude.{◌≡◌, ◌⊎◌};

mod given;

use given::{NoWords, command_words};
use ksparse::{Exit, ksparse};
use sparse_outside::{RealFiles, RealSink, Words};
use std::env;
use std::process::ExitCode;

fn main(rt: HostRuntime) -> ExitCode {
    ExitCode::from(check(&rt).status())
}

// Does what the words of the command say, and says how it ended.
fn check(rt: &HostRuntime) -> Exit {
    match command_words(rt.alloc(), env::args(rt)) {
        Ok(words) => check_words(rt, &words),
        Err(why) => tell_no_words(rt, why),
    }
}

fn check_words(rt: &HostRuntime, words: &Words) -> Exit {
    let mut files = RealFiles::new(rt);
    let mut out = RealSink::new(rt.stdout());
    let mut err = RealSink::new(rt.stderr());
    ksparse(rt.alloc(), words, &mut files, &mut out, &mut err)
}

// Where a word isn't text no word can be got at, so the line names none. Without memory nothing is told.
fn tell_no_words(rt: &HostRuntime, why: NoWords) -> Exit
    ensures memory { why ≡ NoWords.NoMemory → result ≡ Exit.NoMemory }
    ensures not_text { why ≡ NoWords.NotText → (result ≡ Exit.Usage) ⊎ (result ≡ Exit.WriteFault) }
{
    match why {
        NoWords::NoMemory => Exit::NoMemory,
        NoWords::NotText => match eprintln!(rt; "ksparse: bad word: not UTF-8") {
            Ok(()) => Exit::Usage,
            Err(_) => Exit::WriteFault,
        },
    }
}
