//! The program `workbench`: its library's call over the files of the system and standard output.
#![tactic(auto)]

use sparse_outside::{RealFiles, Words};
use std::env;
use std::io::Write;
use workbench::workbench;

fn main(rt: HostRuntime) -> anyhow::Result<()> {
    let mut args = env::args(&rt)?;
    args.next();
    let mut words = Words::new(rt.alloc());
    for word in args {
        words.push(word.as_bytes())?;
    }
    let text = workbench(rt.alloc(), &words, &mut RealFiles::new(&rt))?;
    rt.stdout().write_all(text.as_slice())?;
    Ok(())
}
