// What loads give.

use sparse_outside::{Files, RealFiles};
use std::alloc::{AllocError, Global};
use std::os::unix::fs::symlink;
use std::rt::Files as System;
use std::{fs, io, str};

/// Loads files and writes what came of it.
pub fn show<R: System + AllocGlobal + Print>(rt: &R) -> io::Result<()> {
    show_small(rt)?;
    show_links(rt)?;
    show_changing(rt)?;
    for size in [0, 1, 16_383, 16_384, 16_385, 100_000] {
        show_sized(rt, size)?;
    }
    Ok(())
}

// More bytes than a name may have.
const LONG_NAME: [u8; 300] = [b'n'; 300];

// Each file has fewer bytes than are asked for.
fn show_small<R: System + AllocGlobal + Print>(rt: &R) -> io::Result<()> {
    let rows: [(&str, &[u8]); 15] = [
        ("one byte", b"one"),
        ("empty", b"empty"),
        ("in a folder", b"folder/inside"),
        ("round about", b"folder/../one"),
        ("a space in its name", b"a name"),
        ("letters of UTF-8 in its name", "größe".as_bytes()),
        ("the first of two", b"first"),
        ("the second of two", b"second"),
        ("the first again", b"first"),
        ("a name that isn't UTF-8", b"one\xff"),
        ("missing", b"missing"),
        ("missing in a folder that is missing", b"missing/one"),
        ("no name at all", b""),
        ("a folder", b"folder"),
        ("behind a file", b"one/inside"),
    ];
    let mut files = RealFiles::new(rt);
    for (case, path) in rows {
        show_load(rt, &mut files, case, path)?;
    }
    show_load(rt, &mut files, "a name too long", &LONG_NAME)?;
    // The system gives these no size.
    show_load(rt, &mut files, "the program's name", b"/proc/self/comm")?;
    show_load(rt, &mut files, "a device with no bytes", b"/dev/null")?;
    show_load(rt, &mut files, "a device with no end", b"/dev/zero")
}

// Loads a small file, and writes how that ended, with the text in the buffer.
fn show_load<R: System + AllocGlobal + Print>(
    rt: &R,
    files: &mut RealFiles<R>,
    case: &str,
    path: &[u8],
) -> io::Result<()> {
    let mut into = Vec::new(rt.alloc());
    let answer = files.load(path, 1_000, &mut into);
    let text = str::from_utf8(into.as_slice()).unwrap_or("no text");
    println!(rt; "{case}: {answer:?} {text:?}")
}

// Loads what is behind a link. No link stays, since the folder `out` may have none where `rt` made it.
fn show_links<R: System + AllocGlobal + Print>(rt: &R) -> io::Result<()> {
    let mut files = RealFiles::new(rt);
    for (case, target) in [
        ("behind a link", "../one"),
        ("behind a link to nothing", "nowhere"),
        ("behind a link to itself", "link"),
    ] {
        symlink(rt, target, "out/link")?;
        let shown = show_load(rt, &mut files, case, b"out/link");
        fs::remove_file(rt, "out/link")?;
        shown?;
    }
    Ok(())
}

// Each load reads the file anew.
fn show_changing<R: System + AllocGlobal + Print>(rt: &R) -> io::Result<()> {
    let mut files = RealFiles::new(rt);
    for text in ["before\n", "after, and longer\n", "cut\n"] {
        fs::write(rt, "out/changing", text)?;
        show_load(rt, &mut files, "written anew", b"out/changing")?;
    }
    Ok(())
}

// Loads a file of so many bytes, where one less is asked for, and as many, and one more.
fn show_sized<R: System + AllocGlobal + Print>(rt: &R, size: u32) -> io::Result<()> {
    let bytes = numbered(rt.alloc(), size)?;
    fs::write(rt, "out/sized", bytes.as_slice())?;
    let mut files = RealFiles::new(rt);
    for most in [
        size.saturating_sub(1),
        size,
        size.saturating_add(1),
        1_000_000,
    ] {
        let mut into = Vec::new(rt.alloc());
        let answer = files.load(b"out/sized", most as usize, &mut into);
        let count = into.len();
        let same = into == bytes;
        println!(rt;
            "{size} bytes, {most} asked for: {answer:?} {count} bytes, all the same: {same}"
        )?;
    }
    Ok(())
}

/// So many bytes, each one more than the one before, and 0 behind 250, so that no two pieces of a power of
/// two are alike.
pub fn numbered(alloc: Global, count: u32) -> Result<Vec<u8>, AllocError> {
    let mut bytes = Vec::new(alloc);
    for number in 0..count {
        bytes.push((number % 251) as u8)?;
    }
    Ok(bytes)
}
