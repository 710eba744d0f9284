//! The walk over control flow graphs as a command: a flow a line in, an answer a line out.
//!
//! Blocks stand behind one another from 0, parted by `|`: steps, then `>` and the numbers of successors. `P5` is a point at
//! token 5, `M5` one with the flag, `A5+1` a change, `C5(0,1)` a call with in 0 and out 1, `E5` an end; `-` stands for no
//! steps. Behind `;` stand the counts to enter and to leave with: `P2 > 1 2 | P4 A4+1 > 2 | P9 E9 ; 0, 1`. Start reading at
//! [`flow_answers`](command::flow_answers).
#![tactic(auto)]

mod check;
mod command;
mod front;
mod law;
mod line;
mod number;
mod step;
mod text;
mod wrong;

use crate::command::{Stop, flow_answers, push_stop};
use sparse_outside::RealFiles;
use std::env;
use std::io::{self, Write};
use std::process::ExitCode;

/// The status where a line has no answer, and where there is no file to read.
const STOPPED: u8 = 2;

fn main(rt: HostRuntime) -> io::Result<ExitCode> {
    let mut args = env::args(&rt)?;
    args.next();
    match (args.next(), args.next()) {
        (Some(path), None) => answer_file(&rt, path.as_bytes()),
        _ => tell(&rt, b"usage: flows FILE\n"),
    }
}

// Writes the answers of a file, and what stopped them.
fn answer_file(rt: &HostRuntime, path: &[u8]) -> io::Result<ExitCode> {
    let mut shown = Vec::new(rt.alloc());
    let ended = flow_answers(&mut shown, rt.alloc(), path, &mut RealFiles::new(rt));
    rt.stdout().write_all(shown.as_slice())?;
    match ended {
        Ok(()) => Ok(ExitCode::SUCCESS),
        Err(stop) => tell_stop(rt, path, stop),
    }
}

fn tell_stop(rt: &HostRuntime, path: &[u8], stop: Stop) -> io::Result<ExitCode> {
    let mut told = Vec::new(rt.alloc());
    push_stop(&mut told, path, stop)?;
    tell(rt, told.as_slice())
}

fn tell(rt: &HostRuntime, text: &[u8]) -> io::Result<ExitCode> {
    rt.stderr().write_all(text)?;
    Ok(ExitCode::from(STOPPED))
}
