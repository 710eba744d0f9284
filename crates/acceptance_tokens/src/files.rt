// Loads over memory and over the system, puts to sinks that fill up, and words.
use sparse_outside::{
    Files, HonestFiles, Load, MemoryFiles, MemorySink, Put, RealFiles, RealSink, Sink, Words,
};
use std::fs;
use std::process::Abort;
use std::rt::Files as SystemFiles;
use std::test::Fail;

// What a row is of, a path, the most bytes, the answer, and what is in the buffer then.
type Row<'a> = (&'a str, &'a str, usize, Load, &'a str);

fn assert_loads<F: Files>(rt: &(impl Abort + AllocGlobal), files: &mut F, rows: &[Row]) {
    for &(case, path, max, answer, bytes) in rows {
        let mut into = Vec::new(rt.alloc());
        let got = files.load(path.as_bytes(), max, &mut into);
        assert_eq!(rt; got, answer, "{case}");
        assert_eq!(rt; into.as_slice(), bytes.as_bytes(), "{case}");
    }
}

#[rattlefmt::skip]
fn assert_memory_files(rt: &(impl Abort + AllocGlobal)) -> Result<(), Fail> {
    let mut files = MemoryFiles::new(rt.alloc());
    files.add(b"a.c", b"int b;")?;
    files.add(b"a.c", b"int a;")?;
    files.fail_call(1)?;
    assert_loads(rt, &mut files, &[
        ("load 1 is told to fail", "a.c", 6, Load::Failed, ""),
        ("load 2 has the newest bytes", "a.c", 6, Load::Whole, "int a;"),
        ("another path", "b.c", 6, Load::Missing, ""),
        ("a byte too long", "a.c", 5, Load::TooLong, ""),
    ]);
    Ok(())
}

#[rattlefmt::skip]
fn assert_honest_files(rt: &(impl Abort + AllocGlobal)) -> Result<(), Fail> {
    let mut files = HonestFiles::new(rt.alloc());
    files.add(b"a.c", b"int a;")?;
    assert_loads(rt, &mut files, &[("it is there", "a.c", 6, Load::Whole, "int a;")]);
    Ok(())
}

#[rattlefmt::skip]
fn assert_real_files(rt: &(impl Abort + AllocGlobal + SystemFiles)) {
    assert_loads(rt, &mut RealFiles::new(rt), &[
        ("an empty file", "/dev/null", 0, Load::Whole, ""),
        ("bytes without end", "/dev/zero", 100_000, Load::TooLong, ""),
        ("a directory", "/", 6, Load::Failed, ""),
        ("a path through a file", "/dev/null/a.c", 6, Load::Failed, ""),
        ("no such file", "/dev/no such file", 6, Load::Missing, ""),
    ]);
}

#[test]
fn files_are_loaded(rt: HostRuntime) -> Result<(), Fail> {
    assert_memory_files(&rt)?;
    assert_honest_files(&rt)?;
    assert_real_files(&rt);
    Ok(())
}

#[test]
fn pieces_are_put(rt: HostRuntime) -> Result<(), Fail> {
    let mut sink = MemorySink::new(rt.alloc(), 10)?;
    assert_eq!(rt; sink.put(b"int a; int b;"), Put::Took(10));
    assert_eq!(rt; sink.put(b" b;"), Put::Failed);
    assert_eq!(rt; sink.bytes(), b"int a; int".as_slice());
    assert_eq!(rt;
        RealSink::new(fs::create(&rt, "/dev/full")?).put(b"int a;"),
        Put::Failed
    );
    Ok(())
}

#[test]
fn words_are_kept(rt: HostRuntime) -> Result<(), Fail> {
    let mut words = Words::new(rt.alloc());
    words.push(b"a.c")?;
    assert_eq!(rt; words.get(0), Some(b"a.c".as_slice()));
    assert_eq!(rt; words.get(1), None);
    Ok(())
}
