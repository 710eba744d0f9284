// Loads that fail and sinks that fill up, and what is told of them.
use crate::run::{ROOM, Ran, assert_ran, list};
use ksparse::{Exit, ksparse};
use sparse_outside::{MemoryFiles, MemorySink};
use std::alloc::{AllocError, Global};
use std::test::Fail;

const UNIT: &str =
    "extern int *p;\nextern int __attribute__((noderef, address_space(__user))) *u;\nvoid f(void) { p = u; }\n";

const WARNING: &str =
    "t.c:3:18: warning: incorrect type in assignment (different address spaces)\nt.c:3:18:    expected int *\nt.c:3:18:    got int noderef address_space(__user) *\n";

const TOKENS: &str =
    "extern int * p ;\nextern int __attribute__ ( ( noderef , address_space ( __user ) ) ) * u ;\nvoid f ( void ) { p = u ; }\n";

// A file: its path, and its bytes.
type File = (&'static str, &'static str);

const ALONE: &[File] = &[("t.c", UNIT)];

// A unit with three headers, which are loaded in the order `t.c`, `a.h`, `c.h`, `b.h`.
const HEADED: &[File] = &[
    (
        "t.c",
        "#include \"a.h\"\n#include \"b.h\"\nvoid f(void) { p = u; }\n",
    ),
    ("a.h", "#include \"c.h\"\nextern int *p;\n"),
    ("b.h", "extern int USER *u;\n"),
    ("c.h", "#define USER __attribute__((noderef))\n"),
];

const HEADED_WARNING: &str =
    "t.c:3:18: warning: incorrect type in assignment (different address spaces)\nt.c:3:18:    expected int *\nt.c:3:18:    got int noderef *\n";

// A unit with one header.
const WITH_HEADER: &[File] = &[("t.c", "#include \"a.h\"\n"), ("a.h", "extern int x;\n")];

// A header that lies in the second directory alone, or in none.
const SEARCHED: &[File] = &[("t.c", "#include <a.h>\n"), ("e/a.h", "")];

// What a run of these words leaves over these files where the loads with these numbers fail, and standard error has so
// much room, and standard output none.
fn run_with(
    alloc: Global,
    words: &[&str],
    kept: &[File],
    failing: &[u32],
    room: usize,
) -> Result<Ran, AllocError> {
    let words = list(alloc, words)?;
    let mut files = MemoryFiles::new(alloc);
    for (path, bytes) in kept {
        files.add(path.as_bytes(), bytes.as_bytes())?;
    }
    for number in failing {
        files.fail_call(*number)?;
    }
    let mut out = MemorySink::new(alloc, 0)?;
    let mut err = MemorySink::new(alloc, room)?;
    let exit = ksparse(alloc, &words, &mut files, &mut out, &mut err);
    Ok(Ran { exit, out, err })
}

// A run in which something fails: what it shows, its words and files, the numbers of the loads that fail, the room for
// standard error, what stands there, and the exit.
struct Faulty {
    case: &'static str,
    words: &'static [&'static str],
    files: &'static [File],
    failing: &'static [u32],
    room: usize,
    err: &'static str,
    exit: Exit,
}

#[rattlefmt::skip]
const FAULTY: [Faulty; 9] = [
    Faulty { case: "a failed load is no missing file", words: &["t.c"], files: ALONE, failing: &[1], room: ROOM, err: "", exit: Exit::ReadFault },
    Faulty { case: "a later load isn't made", words: &["t.c"], files: ALONE, failing: &[2], room: ROOM, err: WARNING, exit: Exit::Warned },
    Faulty { case: "room for a place alone", words: &["t.c"], files: ALONE, failing: &[], room: 10, err: "t.c:3:18: ", exit: Exit::WriteFault },
    Faulty { case: "the load behind those of the headers isn't made", words: &["t.c"], files: HEADED, failing: &[5], room: ROOM, err: HEADED_WARNING, exit: Exit::Warned },
    Faulty { case: "the load of the one header", words: &["t.c"], files: WITH_HEADER, failing: &[2], room: ROOM, err: "", exit: Exit::ReadFault },
    Faulty { case: "the load behind that of the one header isn't made", words: &["t.c"], files: WITH_HEADER, failing: &[3], room: ROOM, err: "", exit: Exit::Clean },
    Faulty { case: "no directory is searched behind a failed load", words: &["-Id", "-Ie", "t.c"], files: SEARCHED, failing: &[2], room: ROOM, err: "", exit: Exit::ReadFault },
    Faulty { case: "the load that finds the header", words: &["-Id", "-Ie", "t.c"], files: SEARCHED, failing: &[3], room: ROOM, err: "", exit: Exit::ReadFault },
    Faulty { case: "a failed load of a header that is missing", words: &["-Id", "t.c"], files: SEARCHED, failing: &[2], room: ROOM, err: "", exit: Exit::ReadFault },
];

#[test]
fn faults_are_told(rt: HostRuntime) -> Result<(), Fail> {
    for faulty in &FAULTY {
        let ran = run_with(
            rt.alloc(),
            faulty.words,
            faulty.files,
            faulty.failing,
            faulty.room,
        )?;
        assert_ran(&rt, faulty.case, &ran, faulty.exit, faulty.err.as_bytes());
    }
    Ok(())
}

#[test]
fn each_load_of_a_unit_may_fail(rt: HostRuntime) -> Result<(), Fail> {
    for words in [["t.c"].as_slice(), ["-E", "t.c"].as_slice()] {
        for failing in 1..=4 {
            let case = format!(in rt.alloc(); "load {failing}")?;
            let ran = run_with(rt.alloc(), words, HEADED, &[failing], ROOM)?;
            assert_ran(&rt, case.as_str(), &ran, Exit::ReadFault, b"");
        }
    }
    Ok(())
}

#[test]
fn a_sink_holds_a_front(rt: HostRuntime) -> Result<(), Fail> {
    let warning = WARNING.as_bytes();
    for room in 0..=warning.len() {
        let exit = if room < warning.len() {
            Exit::WriteFault
        } else {
            Exit::Warned
        };
        let case = format!(in rt.alloc(); "room for {room}")?;
        let ran = run_with(rt.alloc(), &["t.c"], ALONE, &[], room)?;
        assert_ran(&rt, case.as_str(), &ran, exit, &warning[..room]);
    }
    Ok(())
}

// Two hundred warnings, all at the place of one macro.
const MANY: &[File] = &[(
    "t.c",
    "extern int __attribute__((noderef)) *u;\n#define FIVE *u; *u; *u; *u; *u;\n#define FIFTY FIVE FIVE FIVE FIVE FIVE FIVE FIVE FIVE FIVE FIVE\n#define ALL FIFTY FIFTY FIFTY FIFTY\nvoid f(void) { ALL }\n",
)];

const ONE_OF_MANY: &str = "t.c:5:16: warning: dereference of noderef expression\n";

// The text of all of them.
fn many_warnings(alloc: Global) -> Result<Vec<u8>, AllocError> {
    let mut text = Vec::new(alloc);
    for _ in 0..200 {
        text.extend_from_slice(ONE_OF_MANY.as_bytes())?;
    }
    Ok(text)
}

#[test]
fn a_sink_holds_a_front_of_many_warnings(rt: HostRuntime) -> Result<(), Fail> {
    let warnings = many_warnings(rt.alloc())?;
    for room in 0..=warnings.len() {
        let exit = if room < warnings.len() {
            Exit::WriteFault
        } else {
            Exit::Warned
        };
        let case = format!(in rt.alloc(); "room for {room}")?;
        let ran = run_with(rt.alloc(), &["t.c"], MANY, &[], room)?;
        assert_ran(&rt, case.as_str(), &ran, exit, &warnings[..room]);
    }
    Ok(())
}

// What `-E` leaves where standard output has so much room, and standard error none.
fn expand_into(alloc: Global, room: usize) -> Result<Ran, AllocError> {
    let words = list(alloc, &["-E", "t.c"])?;
    let mut files = MemoryFiles::new(alloc);
    files.add(b"t.c", UNIT.as_bytes())?;
    let mut out = MemorySink::new(alloc, room)?;
    let mut err = MemorySink::new(alloc, 0)?;
    let exit = ksparse(alloc, &words, &mut files, &mut out, &mut err);
    Ok(Ran { exit, out, err })
}

#[test]
fn a_sink_holds_a_front_of_the_tokens(rt: HostRuntime) -> Result<(), Fail> {
    let tokens = TOKENS.as_bytes();
    for room in 0..=tokens.len() {
        let exit = if room < tokens.len() {
            Exit::WriteFault
        } else {
            Exit::Clean
        };
        let case = format!(in rt.alloc(); "room for {room}")?;
        let case = case.as_str();
        let ran = expand_into(rt.alloc(), room)?;
        assert_eq!(rt; ran.exit, exit, "{case}");
        assert_eq!(rt; ran.out.bytes(), &tokens[..room], "{case}");
        assert_eq!(rt; ran.err.bytes(), b"".as_slice(), "{case}");
    }
    Ok(())
}
