// Archives that are right, and ones that are wrong in one way each. What is told of each is known.
use crate::archive::run_archive;
use anyhow::Result;

// What an archive shows, its text, and what is told of it.
struct Archive {
    case: &'static str,
    text: &'static str,
    told: &'static str,
}

// In all of them `t.c` is a unit in the form, `u.c` isn't, and `-x` is a bad word.
#[rattlefmt::skip]
const RIGHT: [Archive; 7] = [
    Archive { case: "each kind of section", text: "Two commands.\n-- t.c --\nextern int x;\n$ ksparse t.c # it shows this\n-- out --\n-- err --\n-- status --\n0\n$ ksparse -x t.c\n-- err --\nksparse: bad word: -x\n-- status --\n3\n", told: "" },
    Archive { case: "a comment of two lines, and blank ones", text: "\nA comment.\n\nMore of it: --\n$\n$ ksparse\n-- err --\nksparse: missing file\n-- status --\n3\n", told: "" },
    Archive { case: "escapes in a section", text: "Escapes.\n-- t.c escaped --\n\\*3* \\x22\\\n$ ksparse t.c\n-- err escaped --\nt.c\\x3A1:4: error[\\*1*4]: unterminated literal\n-- status --\n2\n", told: "" },
    Archive { case: "escapes in words and names", text: "Escapes.\n-- \\x74.c --\n-- a\\x20b\\\\.c --\n$ ksparse t.c\n$ ksparse a\\x20b\\\\.c\n$ ksparse -\\0\\r\n-- err escaped --\nksparse: bad word: -\\0\\r\n-- status --\n3\n", told: "" },
    Archive { case: "the empty word", text: "A word.\n$ ksparse \\\n-- err --\nksparse: error[1]: no such file: \n-- status --\n2\n", told: "" },
    Archive { case: "a file for two commands, and another one in its place", text: "Files.\n-- t.c --\n$ ksparse t.c\n$ ksparse t.c\n-- t.c --\n\"\n$ ksparse t.c\n-- err --\nt.c:1:1: error[4]: unterminated literal\n-- status --\n2\n", told: "" },
    Archive { case: "lines that begin nearly as a section or a command", text: "Lines.\n-- t.c --\n/*\n--\n--x\n - -- x --\n$x\n $ ksparse\n*/\n$ ksparse t.c\n", told: "" },
];

#[rattlefmt::skip]
const WRONG_EXPECTATIONS: [Archive; 11] = [
    Archive { case: "another out", text: "Wrong.\n-- t.c --\n$ ksparse t.c\n-- out --\nx\n", told: "a.txt:3: line 1 of out\n  expected \"x\\n\"\n  got      \"\"\n" },
    Archive { case: "another err", text: "Wrong.\n$ ksparse\n-- err --\nksparse: missing files\n-- status --\n3\n", told: "a.txt:2: line 1 of err\n  expected \"ksparse: missing files\\n\"\n  got      \"ksparse: missing file\\n\"\n" },
    Archive { case: "an err that isn't expected", text: "Wrong.\n$ ksparse\n-- status --\n3\n", told: "a.txt:2: line 1 of err\n  expected \"\"\n  got      \"ksparse: missing file\\n\"\n" },
    Archive { case: "an err where nothing is written", text: "Wrong.\n-- t.c --\n$ ksparse t.c\n-- err --\n\n", told: "a.txt:3: line 1 of err\n  expected \"\\n\"\n  got      \"\"\n" },
    Archive { case: "an err with a line too many", text: "Wrong.\n$ ksparse\n-- err --\nksparse: missing file\nx\n-- status --\n3\n", told: "a.txt:2: line 2 of err\n  expected \"x\\n\"\n  got      \"\"\n" },
    Archive { case: "an err without its new-line", text: "Wrong.\n$ ksparse\n-- err escaped --\nksparse: missing file\\\n-- status --\n3\n", told: "a.txt:2: line 1 of err\n  expected \"ksparse: missing file\"\n  got      \"ksparse: missing file\\n\"\n" },
    Archive { case: "another status", text: "Wrong.\n-- t.c --\n$ ksparse t.c\n-- status --\n1\n", told: "a.txt:3: line 1 of status\n  expected \"1\\n\"\n  got      \"0\\n\"\n" },
    Archive { case: "a status that isn't expected", text: "Wrong.\n$ ksparse\n-- err --\nksparse: missing file\n", told: "a.txt:2: line 1 of status\n  expected \"0\\n\"\n  got      \"3\\n\"\n" },
    Archive { case: "a status with another spelling", text: "Wrong.\n-- t.c --\n$ ksparse t.c\n-- status --\n00\n", told: "a.txt:3: line 1 of status\n  expected \"00\\n\"\n  got      \"0\\n\"\n" },
    Archive { case: "a status without its number", text: "Wrong.\n-- t.c --\n$ ksparse t.c\n-- status --\n", told: "a.txt:3: line 1 of status\n  expected \"\"\n  got      \"0\\n\"\n" },
    Archive { case: "two wrong commands", text: "Wrong.\n-- t.c --\n$ ksparse t.c\n-- status --\n1\n$ ksparse t.c\n-- out --\nx\n", told: "a.txt:3: line 1 of status\n  expected \"1\\n\"\n  got      \"0\\n\"\na.txt:6: line 1 of out\n  expected \"x\\n\"\n  got      \"\"\n" },
];

#[rattlefmt::skip]
const WRONG_FORMS: [Archive; 34] = [
    Archive { case: "an empty archive", text: "", told: "a.txt:1: the last line has no new-line\na.txt:1: no comment\na.txt:1: no command\n" },
    Archive { case: "a comment alone", text: "Wrong.\n", told: "a.txt:1: no command\n" },
    Archive { case: "no command", text: "Wrong.\n-- t.c --\n", told: "a.txt:2: no command sees the file\na.txt:1: no command\na.txt:2: nothing names the file\n" },
    Archive { case: "a section before any comment", text: "-- t.c --\n$ ksparse t.c\n", told: "a.txt:1: no comment\n" },
    Archive { case: "a command before any comment", text: "$ ksparse t.c\n-- t.c --\n$ ksparse t.c\n", told: "a.txt:1: no comment\na.txt:1: line 1 of err\n  expected \"\"\n  got      \"ksparse: error[1]: no such file: t.c\\n\"\n" },
    Archive { case: "a comment of blank lines", text: "\n \n-- t.c --\n$ ksparse t.c\n", told: "a.txt:1: no comment\n" },
    Archive { case: "no last new-line", text: "Wrong.\n-- t.c --\n$ ksparse t.c", told: "a.txt:1: the last line has no new-line\n" },
    Archive { case: "out is expected twice", text: "Wrong.\n-- t.c --\n$ ksparse t.c\n-- out --\n-- out --\n", told: "a.txt:5: expected twice\n" },
    Archive { case: "err is expected twice", text: "Wrong.\n-- t.c --\n$ ksparse t.c\n-- err --\n-- status --\n0\n-- err escaped --\n", told: "a.txt:7: expected twice\n" },
    Archive { case: "a status is expected twice", text: "Wrong.\n-- t.c --\n$ ksparse t.c\n-- status --\n0\n-- status --\n0\n", told: "a.txt:6: expected twice\n" },
    Archive { case: "expected before any command", text: "Wrong.\n-- t.c --\n-- out --\n$ ksparse t.c\n", told: "a.txt:3: expected of no command\n" },
    Archive { case: "expected behind a file", text: "Wrong.\n-- t.c --\n$ ksparse t.c\n-- u.c --\n-- out --\n$ ksparse t.c\n", told: "a.txt:5: expected of no command\na.txt:4: nothing names the file\n" },
    Archive { case: "a file behind the last command", text: "Wrong.\n-- t.c --\n$ ksparse t.c\n-- u.c --\n", told: "a.txt:4: no command sees the file\na.txt:4: nothing names the file\n" },
    Archive { case: "a section with a misspelled name", text: "Wrong.\n-- t.c --\n$ ksparse t.c\n-- ouput --\n$ ksparse t.c\n", told: "a.txt:4: nothing names the file\n" },
    Archive { case: "a header that no file names", text: "Wrong.\n-- d/a.h --\n-- t.c --\n#include <b.h>\n-- d/b.h --\n$ ksparse -Id t.c\n", told: "a.txt:2: nothing names the file\n" },
    Archive { case: "a file twice before a command", text: "Wrong.\n-- t.c --\n\"\n-- t.c --\n$ ksparse t.c\n", told: "a.txt:4: no command saw the file of this name before it\n" },
    Archive { case: "a file twice under two spellings", text: "Wrong.\n-- t.c --\n\"\n-- \\x74.c --\n$ ksparse t.c\n", told: "a.txt:4: no command saw the file of this name before it\n" },
    Archive { case: "a section without its end", text: "Wrong.\n-- t.c --\n-- u.c\n$ ksparse t.c\n", told: "a.txt:3: no section begins so\n" },
    Archive { case: "a section with a space behind it", text: "Wrong.\n-- t.c --\n-- u.c -- \n$ ksparse t.c\n", told: "a.txt:3: no section begins so\n" },
    Archive { case: "a section without a name", text: "Wrong.\n-- t.c --\n-- --\n$ ksparse t.c\n", told: "a.txt:3: no section begins so\n" },
    Archive { case: "an escaped section without a name", text: "Wrong.\n-- t.c --\n--  escaped --\n$ ksparse t.c\n", told: "a.txt:3: no section begins so\n" },
    Archive { case: "another mark of a section", text: "Wrong.\n-- t.c --\n-- u.c escape --\n$ ksparse t.c\n", told: "a.txt:3: no section begins so\n" },
    Archive { case: "two marks of a section", text: "Wrong.\n-- t.c --\n-- u.c escaped escaped --\n$ ksparse t.c\n", told: "a.txt:3: no section begins so\n" },
    Archive { case: "a line behind a command", text: "Wrong.\n-- t.c --\n$ ksparse t.c\n\n-- out --\n", told: "a.txt:4: a line of no section\n" },
    Archive { case: "an unknown program", text: "Wrong.\n-- t.c --\n$ ksparse t.c\n$ sparse t.c\n", told: "a.txt:4: no such program\n" },
    Archive { case: "no program", text: "Wrong.\n-- t.c --\n$ ksparse t.c\n$ \n", told: "a.txt:4: no such program\n" },
    Archive { case: "two spaces between words", text: "Wrong.\n-- t.c --\n$ ksparse t.c\n$ ksparse  t.c\n", told: "a.txt:4: words that can't be read\n" },
    Archive { case: "a space behind the words", text: "Wrong.\n-- t.c --\n$ ksparse t.c\n$ ksparse t.c \n", told: "a.txt:4: words that can't be read\n" },
    Archive { case: "a bad escape in a word", text: "Wrong.\n-- t.c --\n$ ksparse t.c\n$ ksparse \\t.c\n", told: "a.txt:4: words that can't be read\n" },
    Archive { case: "a bad escape in a name", text: "Wrong.\n-- t.c --\n-- \\q --\n$ ksparse t.c\n", told: "a.txt:3: a bad escape in the name\n" },
    Archive { case: "a bad escape in a section", text: "Wrong.\n-- t.c --\n-- u.c escaped --\n\\n\n$ ksparse t.c\n", told: "a.txt:3: a bad escape in the section\na.txt:3: nothing names the file\n" },
    Archive { case: "an escape with a digit too few", text: "Wrong.\n-- t.c --\n-- u.c escaped --\n\\xF\n$ ksparse t.c\n", told: "a.txt:3: a bad escape in the section\na.txt:3: nothing names the file\n" },
    Archive { case: "a last backslash that isn't the last", text: "Wrong.\n-- t.c --\n-- u.c escaped --\n\\\n\n$ ksparse t.c\n", told: "a.txt:3: a bad escape in the section\na.txt:3: nothing names the file\n" },
    Archive { case: "a number that is too large", text: "Wrong.\n-- t.c --\n-- u.c escaped --\n\\*10000000*a\n$ ksparse t.c\n", told: "a.txt:3: a bad escape in the section\na.txt:3: nothing names the file\n" },
];

/// Prints of which archives something else is told than should be, and says whether there is none.
pub fn are_told<R: AllocGlobal + Print>(rt: &R) -> Result<bool> {
    let mut told = true;
    for archives in [
        RIGHT.as_slice(),
        WRONG_EXPECTATIONS.as_slice(),
        WRONG_FORMS.as_slice(),
    ] {
        for archive in archives {
            if !is_told(rt, archive)? {
                told = false;
            }
        }
    }
    Ok(told)
}

// Whether exactly what should be is told of an archive; prints what is told, where it isn't that.
fn is_told<R: AllocGlobal + Print>(rt: &R, archive: &Archive) -> Result<bool> {
    let shown = run_archive(rt.alloc(), "a.txt", archive.text)?;
    let amiss = shown.amiss.as_str();
    if amiss == archive.told {
        return Ok(true);
    }
    let case = archive.case;
    let told = archive.told;
    println!(rt; "wrongly judged: {case}\nexpected\n{told}got\n{amiss}")?;
    Ok(false)
}
