// What the tests share: a check of one text, and what it has to leave.
use ksparse::{Exit, ksparse};
use sparse_outside::{HonestFiles, MemorySink, Words};
use std::alloc::{AllocError, Global};
use std::process::Abort;

/// Room for each text of a test.
pub const ROOM: usize = 4096;

/// What a run of the top call left.
#[derive(Drop)]
pub struct Ran {
    pub exit: Exit,
    pub out: MemorySink,
    pub err: MemorySink,
}

/// The words as a list.
pub fn list(alloc: Global, words: &[&str]) -> Result<Words, AllocError> {
    let mut list = Words::new(alloc);
    for word in words {
        list.push(word.as_bytes())?;
    }
    Ok(list)
}

/// Checks the one file `t.c` with this text.
pub fn check(alloc: Global, text: &[u8]) -> Result<Ran, AllocError> {
    let words = list(alloc, &["t.c"])?;
    let mut files = HonestFiles::new(alloc);
    files.add(b"t.c", text)?;
    let mut out = MemorySink::new(alloc, ROOM)?;
    let mut err = MemorySink::new(alloc, ROOM)?;
    let exit = ksparse(alloc, &words, &mut files, &mut out, &mut err);
    Ok(Ran { exit, out, err })
}

/// Asserts how a run ended and what it wrote to standard error, and that it wrote nothing else.
pub fn assert_ran(rt: &(impl Abort + AllocGlobal), case: &str, ran: &Ran, exit: Exit, err: &[u8]) {
    assert_eq!(rt; ran.exit, exit, "{case}");
    assert_eq!(rt; ran.err.bytes(), err, "{case}");
    assert_eq!(rt; ran.out.bytes(), b"".as_slice(), "{case}");
}
