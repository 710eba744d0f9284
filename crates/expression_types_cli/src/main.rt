//! The program `types`: its library's call over the files of the system, standard output and standard error.
#![tactic(auto)]

use sparse_outside::{RealFiles, RealSink, Words};
use std::env;
use std::process::ExitCode;
use unit_commands::{Command, show};

fn main(rt: HostRuntime) -> anyhow::Result<ExitCode> {
    let mut args = env::args(&rt)?;
    args.next();
    let mut words = Words::new(rt.alloc());
    for word in args {
        words.push(word.as_bytes())?;
    }
    let mut files = RealFiles::new(&rt);
    let mut out = RealSink::new(rt.stdout());
    let mut err = RealSink::new(rt.stderr());
    let exit = show(
        rt.alloc(),
        Command::Types,
        &words,
        &mut files,
        &mut out,
        &mut err,
    );
    Ok(ExitCode::from(exit.status()))
}
