// Units that are nearly as deep and as wide as the limits let them be: what stands in their middle, or behind all else, is judged.
use crate::run::{assert_ran, check};
use ksparse::Exit;
use std::alloc::{AllocError, Global};
use std::test::Fail;

// What the units begin with: all in one line, but for what fails.
const BEGIN: &str = "void f(int a, int *p, char *s) { ";

// What is told of `p = s`, which stands behind one character in the second line.
const WARNING: &str =
    "t.c:2:4: warning: incorrect type in assignment (different base types)\nt.c:2:4:    expected int *\nt.c:2:4:    got char *\n";

// A unit of so many links: behind a front stand the links, between whose pieces stand their numbers, what fails, and so often what
// closes a link.
struct Large {
    case: &'static str,
    front: &'static str,
    link: &'static [&'static str],
    count: u32,
    failing: &'static str,
    back: &'static str,
}

const STATEMENT: &str = "\n p = s;";

const ITEM: &str = "\n(p = s, 1)";

const LAST_ITEM: &str = "\n(p = s, 1) };";

const STRUCTURES: &str = "struct { struct { int a, b; } c; struct { int d; } e; } k[] = { ";

#[rattlefmt::skip]
const LARGE: [Large; 13] = [
    Large { case: "cases of one switch", front: "switch (a) ", link: &["case ", ": "], count: 100_000, failing: STATEMENT, back: "" },
    Large { case: "switches in one another", front: "", link: &["switch (a) case 1: "], count: 100_000, failing: STATEMENT, back: "" },
    Large { case: "jumps to as many labels", front: "", link: &["goto l", "; l", ": ; "], count: 100_000, failing: STATEMENT, back: "" },
    Large { case: "bodies", front: "", link: &["{ "], count: 32_000, failing: STATEMENT, back: " }" },
    Large { case: "do", front: "", link: &["do "], count: 13_000, failing: STATEMENT, back: " while (a);" },
    Large { case: "if", front: "", link: &["if (a) "], count: 65_000, failing: STATEMENT, back: "" },
    Large { case: "else if", front: "", link: &["if (a) ; else "], count: 300_000, failing: STATEMENT, back: "" },
    Large { case: "items", front: "int k[] = { ", link: &["1, "], count: 900_000, failing: LAST_ITEM, back: "" },
    Large { case: "designated items", front: "int k[] = { ", link: &["[1] = 1, "], count: 100_000, failing: LAST_ITEM, back: "" },
    Large { case: "braces", front: "int k = ", link: &["{ "], count: 30_000, failing: ITEM, back: " }" },
    Large { case: "items of parts without braces", front: STRUCTURES, link: &["1, 1, 1, "], count: 33_333, failing: LAST_ITEM, back: "" },
    Large { case: "compound literals", front: "", link: &["(int){ 1 }; "], count: 100_000, failing: STATEMENT, back: "" },
    Large { case: "a string", front: "char k[8000000] = \"", link: &["a"], count: 8_000_000, failing: "\";\n p = s;", back: "" },
];

// Writes the link with this number.
fn write_link(text: &mut String, link: &[&str], number: u32) -> Result<(), AllocError> {
    let Some((first, others)) = link.split_first() else {
        return Ok(());
    };
    write!(text, "{first}")?;
    for piece in others {
        write!(text, "{number}{piece}")?;
    }
    Ok(())
}

fn text_of(alloc: Global, large: &Large) -> Result<String, AllocError> {
    let mut text = String::from_str(alloc, BEGIN)?;
    write!(text, "{}", large.front)?;
    for number in 0..large.count {
        write_link(&mut text, large.link, number)?;
    }
    write!(text, "{}", large.failing)?;
    for _ in 0..large.count {
        write!(text, "{}", large.back)?;
    }
    write!(text, "; }}\n")?;
    Ok(text)
}

#[test]
fn deep_and_wide_units_are_judged(rt: HostRuntime) -> Result<(), Fail> {
    for large in &LARGE {
        let text = text_of(rt.alloc(), large)?;
        let ran = check(rt.alloc(), text.as_bytes())?;
        assert_ran(&rt, large.case, &ran, Exit::Warned, WARNING.as_bytes());
    }
    Ok(())
}
