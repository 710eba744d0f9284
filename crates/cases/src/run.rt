// One run over the archives of a folder.
use crate::archive::run_archive;
use anyhow::Result;
use ksparse::Exit;
use std::rt::Files;
use std::{fs, io};

const ENDINGS: [Exit; 8] = [
    Exit::Clean,
    Exit::Warned,
    Exit::Refused,
    Exit::Usage,
    Exit::ReadFault,
    Exit::WriteFault,
    Exit::NoMemory,
    Exit::Limit,
];

/// Runs the archives in the folder that the program is run in, prints the counts, and says whether each
/// command left what is expected of it.
pub fn run_all<R: Files + AllocGlobal + Print + Clone + Drop>(rt: &R) -> Result<bool> {
    let names = archive_names(rt)?;
    let mut endings = Vec::new(rt.alloc());
    let mut passed = true;
    for name in &names {
        if !run_file(rt, name.as_str(), &mut endings)? {
            passed = false;
        }
    }
    print_counts(rt, endings.as_slice())?;
    let count = names.len();
    println!(rt; "archives {count}")?;
    Ok(passed)
}

// Prints how many commands ended in each way.
fn print_counts(rt: &impl Print, endings: &[Exit]) -> Result<()> {
    for kind in ENDINGS {
        let count = endings.iter().filter(|ending| **ending == kind).count();
        println!(rt; "{kind:?} {count}")?;
    }
    Ok(())
}

// The names of the archives in this folder, in order.
fn archive_names<R: Files + AllocGlobal + Clone + Drop>(rt: &R) -> io::Result<Vec<String>> {
    let mut names = Vec::new(rt.alloc());
    for entry in fs::read_dir(rt, ".")? {
        let entry = entry?;
        let name = entry.file_name();
        if name.ends_with(".txt") {
            names.push(String::from_str(rt.alloc(), name)?)?;
        }
    }
    names.sort()?;
    Ok(names)
}

// Runs the archive of this name, adds its endings to those of the others, and says whether nothing is
// amiss.
fn run_file<R: Files + AllocGlobal + Print>(
    rt: &R,
    name: &str,
    endings: &mut Vec<Exit>,
) -> Result<bool> {
    let Ok(text) = fs::read_to_string(rt, name) else {
        println!(rt; "{name}: can't be read as text")?;
        return Ok(false);
    };
    let mut shown = run_archive(rt.alloc(), name, text.as_str())?;
    let amiss = shown.amiss.as_str();
    print!(rt; "{amiss}")?;
    endings.append(&mut shown.endings)?;
    Ok(shown.amiss.is_empty())
}
