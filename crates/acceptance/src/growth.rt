// What may answer want of memory takes so much, where there is memory.
use c_literals::read_string;
use c_tokens::Names;
use ksparse::{Command, read_words};
use region_alloc::Region;
use sparse_model::Seq;
use sparse_outside::{Files, HonestFiles, Load, MemoryFiles, MemorySink, Put, Sink, Words};
use std::alloc::{AllocError, Global};
use std::process::Abort;
use std::test::Fail;
use tag_list::TagList;

// How many values are put in a row: 65,536 is one more than two bytes hold.
const COUNTS: [u32; 3] = [1_000, 65_536, 70_000];

// How many bytes a text has.
const LENGTHS: [usize; 5] = [255, 4_096, 65_535, 65_536, 70_000];

// The spelling of a number.
fn spelled(alloc: Global, number: u32) -> Result<String, AllocError> {
    let mut text = String::from_str(alloc, "a")?;
    write!(text, "{number}")?;
    Ok(text)
}

fn assert_region(rt: &(impl Abort + AllocGlobal), count: u32) {
    let mut region = Region::new(rt.alloc());
    for value in 0..count {
        assert!(rt; region.len() < 1 << 30);
        assert_eq!(rt; region.put(value).ok(), Some(value));
    }
    assert_eq!(rt; region.len(), count);
}

fn assert_list(rt: &(impl Abort + AllocGlobal), count: u32) {
    let mut list = Seq::new(rt.alloc());
    for value in 0..count {
        assert!(rt; list.push(value).is_ok());
    }
    assert_eq!(rt; list.len(), count as usize);
}

fn assert_pairs(rt: &(impl Abort + AllocGlobal), count: u32) {
    let mut pairs = TagList::new(rt.alloc());
    for handle in 0..count {
        let room = handle < 1 << 30 && pairs.len() < 1 << 30;
        assert!(rt; room);
        assert!(rt; pairs.push(handle, (handle % 4) as u8).is_ok());
    }
    assert_eq!(rt; pairs.len(), count);
}

// Spellings have ids in order, from 1 on.
fn assert_names(rt: &(impl Abort + AllocGlobal), count: u32) -> Result<(), AllocError> {
    let mut names = Names::new(rt.alloc())?;
    for number in 0..count {
        let id = names.intern(spelled(rt.alloc(), number)?.as_bytes())?;
        assert_eq!(rt; id.0, number.saturating_add(1));
    }
    Ok(())
}

fn assert_words(rt: &(impl Abort + AllocGlobal), count: u32) -> Result<(), AllocError> {
    let mut words = Words::new(rt.alloc());
    for number in 0..count {
        words.push(spelled(rt.alloc(), number)?.as_bytes())?;
    }
    assert_eq!(rt; words.len(), count as usize);
    Ok(())
}

fn assert_files(rt: &(impl Abort + AllocGlobal), count: u32) -> Result<(), AllocError> {
    let mut files = MemoryFiles::new(rt.alloc());
    for number in 0..count {
        let path = spelled(rt.alloc(), number)?;
        files.add(path.as_bytes(), path.as_bytes())?;
        files.fail_call(number.saturating_add(2))?;
    }
    assert_loads(rt, &mut files, b"a0", Load::Whole);
    assert_loads(rt, &mut files, b"a0", Load::Failed);
    Ok(())
}

fn assert_honest_files(rt: &(impl Abort + AllocGlobal), count: u32) -> Result<(), AllocError> {
    let mut files = HonestFiles::new(rt.alloc());
    for number in 0..count {
        let path = spelled(rt.alloc(), number)?;
        files.add(path.as_bytes(), path.as_bytes())?;
    }
    assert_loads(rt, &mut files, b"a0", Load::Whole);
    Ok(())
}

// A load of a file that holds its path.
fn assert_loads<F: Files>(
    rt: &(impl Abort + AllocGlobal),
    files: &mut F,
    path: &[u8],
    answer: Load,
) {
    let mut into = Vec::new(rt.alloc());
    assert_eq!(rt; files.load(path, path.len(), &mut into), answer);
    let bytes = if answer == Load::Whole { path } else { &[] };
    assert_eq!(rt; into.as_slice(), bytes);
}

#[test]
fn so_many_values_are_taken(rt: HostRuntime) -> Result<(), Fail> {
    for count in COUNTS {
        assert_region(&rt, count);
        assert_list(&rt, count);
        assert_pairs(&rt, count);
        assert_names(&rt, count)?;
        assert_words(&rt, count)?;
        assert_files(&rt, count)?;
        assert_honest_files(&rt, count)?;
    }
    Ok(())
}

// A word of the text names a file that holds it.
fn assert_word(rt: &(impl Abort + AllocGlobal), text: &[u8]) -> Result<(), Fail> {
    let mut words = Words::new(rt.alloc());
    words.push(text)?;
    let Ok(Command::Check { options: _, file }) = read_words(rt.alloc(), &words) else {
        return Err(Fail::new("the word is no file"));
    };
    assert_eq!(rt; file.as_slice(), text);
    Ok(())
}

fn assert_file(rt: &(impl Abort + AllocGlobal), text: &[u8]) -> Result<(), AllocError> {
    let mut files = MemoryFiles::new(rt.alloc());
    files.add(text, text)?;
    assert_loads(rt, &mut files, text, Load::Whole);
    Ok(())
}

fn assert_honest_file(rt: &(impl Abort + AllocGlobal), text: &[u8]) -> Result<(), AllocError> {
    let mut files = HonestFiles::new(rt.alloc());
    files.add(text, text)?;
    assert_loads(rt, &mut files, text, Load::Whole);
    Ok(())
}

fn assert_spelling(rt: &(impl Abort + AllocGlobal), text: &[u8]) -> Result<(), AllocError> {
    let mut names = Names::new(rt.alloc())?;
    let id = names.intern(text)?;
    assert_eq!(rt; names.spelling(id), text);
    Ok(())
}

fn assert_literal(rt: &(impl Abort + AllocGlobal), text: &[u8]) -> Result<(), Fail> {
    let mut literal = Vec::from_slice(rt.alloc(), b"\"")?;
    literal.extend_from_slice(text)?;
    literal.push(b'"')?;
    assert_eq!(rt; read_string(rt.alloc(), &literal)?.as_slice(), text);
    Ok(())
}

fn assert_written(rt: &(impl Abort + AllocGlobal), text: &[u8]) -> Result<(), AllocError> {
    let mut sink = MemorySink::new(rt.alloc(), text.len())?;
    assert!(rt; !text.is_empty());
    assert_eq!(rt; sink.put(text), Put::Took(text.len()));
    assert_eq!(rt; sink.bytes(), text);
    Ok(())
}

// A text of NULs.
#[test]
fn so_long_texts_are_taken(rt: HostRuntime) -> Result<(), Fail> {
    for length in LENGTHS {
        let text = vec![in rt.alloc(); 0u8; length]?;
        assert_word(&rt, &text)?;
        assert_file(&rt, &text)?;
        assert_honest_file(&rt, &text)?;
        assert_spelling(&rt, &text)?;
        assert_literal(&rt, &text)?;
        assert_written(&rt, &text)?;
    }
    Ok(())
}
