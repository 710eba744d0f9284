//! The program `cases`: runs each archive of the folder that it is run in, and compares what its commands
//! write, and their statuses, with what the archive expects.
//!
//! An archive is a text `NAME.txt` in the manner of Go's txtar:
//!
//! ```text
//! An assignment between two spaces is warned of; other words are told.
//! -- t.c --
//! extern int x;
//! -- u.c escaped --
//! extern int x;\r
//! extern int y;\
//! $ ksparse t.c # nothing is expected: no text, and status 0
//! $ ksparse -x u.c # what stands behind ` # ` says what the command shows
//! -- err --
//! ksparse: bad word: -x
//! -- status --
//! 3
//! ```
//!
//! First come comment lines, one at least that isn't blank. `-- NAME --` begins a section, which takes the
//! lines up to the next line that begins with `-- ` or `$ `, byte for byte. Files stand before the commands
//! that see them: a later command sees a file too, until a section of its name comes again. A command or a
//! file names it; one that nothing names is told, since a misspelled section would be one. Behind a command
//! stands what is expected of it: `out`, `err` and `status`, which are nothing, nothing and 0 where they
//! aren't there.
//!
//! The name of a program and the words behind it are parted by single spaces. In a word, in a name of a
//! section, and in a section that is marked as `-- NAME escaped --`, a backslash begins what stands for
//! bytes that can't be written there:
//!
//! | Written | Stands for |
//! |---|---|
//! | `\0` `\r` `\\` | NUL, a carriage return, a backslash |
//! | `\xFF` | the byte with this number, in two hexadecimal digits, as `\x20` in a word for a space |
//! | `\*70000*a` | the one byte behind the second star, so many times, up to 9,999,999 |
//! | a last `\` | nothing, with the new-line behind it; the word `\` is the empty word |
//!
//! First the program sees that wrong archives are told. What an archive is stands in `src/archive.rt`; start
//! reading there.
#![tactic(auto)]

mod archive;
mod command;
mod compare;
mod escapes;
mod line;
mod program;
mod run;
mod wrong_archives;

use std::process::ExitCode;

fn main(rt: HostRuntime) -> anyhow::Result<ExitCode> {
    let told = wrong_archives::are_told(&rt)?;
    let passed = run::run_all(&rt)?;
    if told && passed {
        Ok(ExitCode::SUCCESS)
    } else {
        Ok(ExitCode::FAILURE)
    }
}
