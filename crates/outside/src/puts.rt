// What puts take, and what the files have then.
ghost use Rattle.std.specs.Prelude.{◌≡◌, ◌<◌, ◌≤◌, ◌++◌, length, take};

use crate::loads::numbered;
use crate::writers::{ByteWise, FailsBehind, TakesNothing};
use sparse_outside::{Files, Put, RealFiles, RealSink, Sink};
use std::rt::Files as System;
use std::{fs, io, str};

/// Puts bytes and writes what came of it.
pub fn show<R: System + AllocGlobal + Print>(rt: &R) -> io::Result<()> {
    show_pieces(rt)?;
    show_short(rt)?;
    show_faults(rt)?;
    for size in [1, 16_383, 16_384, 16_385, 100_000] {
        show_sized(rt, size)?;
    }
    Ok(())
}

// Where the files are that are written.
const WRITTEN: &str = "out/written";

// Puts all of the bytes, or a front of them, and says how many were taken.
fn put_all<S: Sink>(sink: &mut S, bytes: &[u8]) -> usize
    ensures within { result ≤ length bytes.now }
    ensures takes { S.taken sink.new ≡ S.taken sink.old ++ take result bytes.now }
{
    let mut done = 0;
    while done < bytes.len() {
        match sink.put(&bytes[done..]) {
            Put::Took(count) => done += count,
            Put::Failed => return done,
        }
    }
    done
}

// Puts two pieces one behind the other, and then a third to the same file anew.
fn show_pieces<R: System + AllocGlobal + Print>(rt: &R) -> io::Result<()> {
    let mut sink = RealSink::new(fs::create(rt, WRITTEN)?);
    for piece in ["int a;\n", "long and longer;\n"] {
        let taken = put_all(&mut sink, piece.as_bytes());
        println!(rt; "a piece: {taken} bytes taken")?;
    }
    drop(sink);
    show_written(rt, "in pieces")?;
    let mut sink = RealSink::new(fs::create(rt, WRITTEN)?);
    let taken = put_all(&mut sink, b"int b;\n");
    println!(rt; "a piece: {taken} bytes taken")?;
    drop(sink);
    show_written(rt, "written anew")
}

// Writes what the file has, as the library reads it and as it is loaded.
fn show_written<R: System + AllocGlobal + Print>(rt: &R, case: &str) -> io::Result<()> {
    let bytes = fs::read(rt, WRITTEN)?;
    let text = str::from_utf8(bytes.as_slice()).unwrap_or("no text");
    let mut into = Vec::new(rt.alloc());
    let answer = RealFiles::new(rt).load(WRITTEN.as_bytes(), 1_000, &mut into);
    let loaded = str::from_utf8(into.as_slice()).unwrap_or("no text");
    println!(rt; "{case}: {text:?}, loaded {answer:?} {loaded:?}")
}

// Puts to a writer that takes one byte at a time.
fn show_short<R: System + AllocGlobal + Print>(rt: &R) -> io::Result<()> {
    let mut sink = RealSink::new(ByteWise {
        inner: fs::create(rt, WRITTEN)?,
    });
    let answer = sink.put(b"int a;\n");
    println!(rt; "one byte at a time, one put: {answer:?}")?;
    let taken = put_all(&mut sink, b"nt a;\n");
    println!(rt; "one byte at a time, the rest: {taken} bytes taken")?;
    drop(sink);
    show_written(rt, "one byte at a time")
}

// Puts to writers that fail.
fn show_faults<R: System + AllocGlobal + Print>(rt: &R) -> io::Result<()> {
    let mut sink = RealSink::new(FailsBehind {
        inner: fs::create(rt, WRITTEN)?,
        room: 10,
    });
    for piece in ["int a;\n", "int b;\n", "int c;\n"] {
        let answer = sink.put(piece.as_bytes());
        println!(rt; "ten bytes fit: {answer:?}")?;
    }
    drop(sink);
    show_written(rt, "ten bytes fit")?;
    let answer = RealSink::new(TakesNothing).put(b"int a;\n");
    println!(rt; "nothing taken: {answer:?}")?;
    let answer = RealSink::new(fs::create(rt, "/dev/full")?).put(b"int a;\n");
    println!(rt; "a full device: {answer:?}")?;
    fs::write(rt, WRITTEN, "as it was\n")?;
    let answer = RealSink::new(fs::open(rt, WRITTEN)?).put(b"2");
    println!(rt; "opened to be read: {answer:?}")?;
    show_written(rt, "opened to be read")
}

// Puts so many bytes, and compares what the file has.
fn show_sized<R: System + AllocGlobal + Print>(rt: &R, size: u32) -> io::Result<()> {
    let bytes = numbered(rt.alloc(), size)?;
    let mut sink = RealSink::new(fs::create(rt, WRITTEN)?);
    let taken = put_all(&mut sink, bytes.as_slice());
    drop(sink);
    let same = fs::read(rt, WRITTEN)? == bytes;
    let mut into = Vec::new(rt.alloc());
    let answer = RealFiles::new(rt).load(WRITTEN.as_bytes(), 1_000_000, &mut into);
    let loaded = into == bytes;
    println!(rt;
        "{size} bytes put: {taken} taken, all the same: {same}, loaded {answer:?}, all the same: {loaded}"
    )
}
