//! The program `outside`: loads files of the system and puts bytes to it, and writes a line on each.
//!
//! No proof sees what the system does, so the lines that are wanted say what lies in `data/`, and what
//! POSIX says of files that can't be opened. What is loaded was written by others, and what is put is read
//! by others, so that no fault of one side hides one of the other. Start reading at `loads.rt`.
#![tactic(auto)]

mod loads;
mod puts;
mod writers;

use std::{fs, io};

fn main(rt: HostRuntime) -> io::Result<()> {
    // It may be there from an earlier run.
    let _ = fs::create_dir(&rt, "out");
    loads::show(&rt)?;
    puts::show(&rt)
}
