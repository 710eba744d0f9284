// Short texts beside listings of their tokens by hand; and ids of spellings.
ghost use Rattle.std.specs.Prelude.{◌^◌, ◌<◌, All, length};
ghost use Rattle.c_tokens.specs.Seen.{IsKnown};

use c_tokens::{LexFault, Names, Token, lex, one_token, punctuator};
use sparse_model::{Place, TokenKind};
use std::alloc::Global;
use std::fmt::Write;
use std::process::Abort;
use std::test::Fail;

// A token on a line, with its place, `^` where it begins a line, `_` where white space stands before
// it, its kind and its spelling.
fn write_token(lines: &mut String, names: &Names, token: &Token) -> Result<(), Fail>
    requires { IsKnown names.now token.now.name }
{
    let Place { file, line, column } = token.place;
    let start = if token.line_start { "^" } else { "" };
    let space = if token.space_before { "_" } else { "" };
    let kind = token.kind;
    let spelling = str::from_utf8(names.spelling(token.name)).unwrap_or("?");
    writeln!(
        lines,
        "{file}:{line}:{column}{start}{space} {kind:?} {spelling}"
    )?;
    Ok(())
}

fn token_lines(alloc: Global, names: &Names, tokens: &[Token]) -> Result<String, Fail>
    requires { All (λ token. IsKnown names.now token.name) tokens.now }
{
    let mut lines = String::new(alloc);
    for token in tokens {
        write_token(&mut lines, names, token)?;
    }
    Ok(lines)
}

fn opening(alloc: Global, what: &str, at: Place) -> Result<String, Fail> {
    let Place { file, line, column } = at;
    Ok(format!(in alloc; "{file}:{line}:{column} open {what}")?)
}

fn fault_line(alloc: Global, fault: LexFault) -> Result<String, Fail> {
    match fault {
        LexFault::OpenComment(at) => opening(alloc, "comment", at),
        LexFault::OpenLiteral(at) => opening(alloc, "literal", at),
        LexFault::Memory => Ok(String::from_str(alloc, "memory")?),
    }
}

// Each token on a line, or else the fault, with its place.
fn listing(alloc: Global, text: &[u8]) -> Result<String, Fail>
    requires { length text.now < 2 ^ 30 }
{
    let mut names = Names::new(alloc)?;
    match lex(alloc, &mut names, 7, text) {
        Ok(tokens) => {
            names.apart();
            token_lines(alloc, &names, &tokens)
        }
        Err(fault) => fault_line(alloc, fault),
    }
}

// A text, and the listing of its tokens.
struct Row {
    case: &'static str,
    text: &'static [u8],
    listing: &'static str,
}

// The places are counted by hand, lines and columns from 1.
#[rattlefmt::skip]
const ROWS: [Row; 30] = [
    Row { case: "no byte", text: b"", listing: "" },
    Row { case: "white space alone", text: b" \t\x0b\x0c\n// a\n/* */", listing: "" },
    Row {
        case: "the longest token that there can be", text: b"a+++b",
        listing: "7:1:1^ Identifier a\n7:1:2 PlusPlus ++\n7:1:4 Plus +\n7:1:5 Identifier b\n",
    },
    Row {
        case: "a word over splices stands at its first byte", text: b" in\\\n\\\nt x\\\n;",
        listing: "7:1:2^_ Identifier int\n7:3:3_ Identifier x\n7:4:1 Semicolon ;\n",
    },
    Row {
        case: "a comment is white space", text: b"a/**/b/*\n*/c//\nd",
        listing: "7:1:1^ Identifier a\n7:1:6_ Identifier b\n7:2:3_ Identifier c\n7:3:1^_ Identifier d\n",
    },
    Row {
        case: "comments over splices", text: b"/\\\n* a *\\\n/b /\\\n/ c\\\nd\ne",
        listing: "7:3:2^_ Identifier b\n7:6:1^_ Identifier e\n",
    },
    Row { case: "an open comment", text: b"a /*b*", listing: "7:1:3 open comment" },
    Row {
        case: "a comment is no shorter than four bytes", text: b"\n/*/",
        listing: "7:2:1 open comment",
    },
    Row { case: "an open literal", text: b"a 'b\n'", listing: "7:1:3 open literal" },
    Row { case: "the first open literal", text: b"a \"b\n\"c\n'", listing: "7:1:3 open literal" },
    Row { case: "an escaped mark closes nothing", text: b"\"\\\"", listing: "7:1:1 open literal" },
    Row { case: "a prefix before an open literal", text: b"L\"a", listing: "7:1:2 open literal" },
    Row {
        case: "a backslash as the last byte", text: b"a\\",
        listing: "7:1:1^ Identifier a\n7:1:2 Stray \\\n",
    },
    Row {
        case: "an escape takes the quotation mark, and nothing may be quoted",
        text: b"'\\'' '' L'a' u8\"b\" u8'c'",
        listing: "7:1:1^ Character '\\''\n7:1:6_ Character ''\n7:1:9_ Character L'a'\n7:1:14_ String u8\"b\"\n7:1:20_ Identifier u8\n7:1:22 Character 'c'\n",
    },
    Row {
        case: "a comment in a literal, a literal in a comment", text: b"\"/*\"'//'/*\"*/x",
        listing: "7:1:1^ String \"/*\"\n7:1:5 Character '//'\n7:1:14_ Identifier x\n",
    },
    Row {
        case: "universal names in words and numbers", text: b"a\\u00e9 \\U0001F600b 1u\\u00e9;",
        listing: "7:1:1^ Identifier a\\u00e9\n7:1:9_ Identifier \\U0001F600b\n7:1:21_ Number 1u\\u00e9\n7:1:29 Semicolon ;\n",
    },
    Row {
        case: "a universal name that is cut short", text: b"a\\u00e;",
        listing: "7:1:1^ Identifier a\n7:1:2 Stray \\\n7:1:3 Identifier u00e\n7:1:7 Semicolon ;\n",
    },
    Row {
        case: "numbers", text: b"0x1.8p-3+.5e+1_a..5 1+2",
        listing: "7:1:1^ Number 0x1.8p-3\n7:1:9 Plus +\n7:1:10 Number .5e+1_a..5\n7:1:21_ Number 1\n7:1:22 Plus +\n7:1:23 Number 2\n",
    },
    Row {
        case: "a digit of a universal name takes no sign", text: b"1\\u000e+5",
        listing: "7:1:1^ Number 1\\u000e\n7:1:8 Plus +\n7:1:9 Number 5\n",
    },
    Row {
        case: "dots", text: b"....x ..5",
        listing: "7:1:1^ Ellipsis ...\n7:1:4 Dot .\n7:1:5 Identifier x\n7:1:7_ Dot .\n7:1:8 Number .5\n",
    },
    Row {
        case: "other bytes", text: b"$@`\x00\x80",
        listing: "7:1:1^ Stray $\n7:1:2 Stray @\n7:1:3 Stray `\n7:1:4 Stray \0\n7:1:5 Stray ?\n",
    },
    Row {
        case: "other bytes in literals and comments", text: b"\"\x80\r\"'\x00'/*$*/a",
        listing: "7:1:1^ String ?\n7:1:5 Character '\0'\n7:1:13_ Identifier a\n",
    },
    Row {
        case: "a carriage return is no white space, and splices nothing", text: b"int x;\r\n\\\r\n",
        listing: "7:1:1^ Identifier int\n7:1:5_ Identifier x\n7:1:6 Semicolon ;\n7:1:7 Stray \r\n7:2:1^_ Stray \\\n7:2:2 Stray \r\n",
    },
    Row {
        case: "header names", text: b"#include <a//b>\n %: include/**/<it's>",
        listing: "7:1:1^ Hash #\n7:1:2 Identifier include\n7:1:10_ HeaderName <a//b>\n7:2:2^_ Hash %:\n7:2:5_ Identifier include\n7:2:16_ HeaderName <it's>\n",
    },
    Row {
        case: "the longer of a header name and a string literal",
        text: b"#include \"a\\\"b\"\n#include \"a\\\"\n#include \"a\"",
        listing: "7:1:1^ Hash #\n7:1:2 Identifier include\n7:1:10_ String \"a\\\"b\"\n7:2:1^_ Hash #\n7:2:2 Identifier include\n7:2:10_ HeaderName \"a\\\"\n7:3:1^_ Hash #\n7:3:2 Identifier include\n7:3:10_ HeaderName \"a\"\n",
    },
    Row {
        case: "no header name behind another word", text: b"#include E <a>",
        listing: "7:1:1^ Hash #\n7:1:2 Identifier include\n7:1:10_ Identifier E\n7:1:12_ Less <\n7:1:13 Identifier a\n7:1:14 Greater >\n",
    },
    Row {
        case: "none behind a # inside of a line", text: b"a #include<b>",
        listing: "7:1:1^ Identifier a\n7:1:3_ Hash #\n7:1:4 Identifier include\n7:1:11 Less <\n7:1:12 Identifier b\n7:1:13 Greater >\n",
    },
    Row {
        case: "none in the next line", text: b"#include\n<b>",
        listing: "7:1:1^ Hash #\n7:1:2 Identifier include\n7:2:1^_ Less <\n7:2:2 Identifier b\n7:2:3 Greater >\n",
    },
    Row {
        case: "one that isn't closed is two tokens at least", text: b"#include <b",
        listing: "7:1:1^ Hash #\n7:1:2 Identifier include\n7:1:10_ Less <\n7:1:11 Identifier b\n",
    },
    Row {
        case: "digraphs keep their spelling", text: b"<::><%%>%:%:%:",
        listing: "7:1:1^ LeftBracket <:\n7:1:3 RightBracket :>\n7:1:5 LeftBrace <%\n7:1:7 RightBrace %>\n7:1:9 HashHash %:%:\n7:1:13 Hash %:\n",
    },
];

// The row's text has the row's listing.
fn assert_listed(rt: &impl Abort, alloc: Global, row: &Row) -> Result<(), Fail> {
    assert!(rt; row.text.len() < 1 << 30);
    let found = listing(alloc, row.text)?;
    let case = row.case;
    assert_eq!(rt; found.as_str(), row.listing, "{case}");
    Ok(())
}

#[test]
fn tokens_have_kinds_spellings_and_places(rt: HostRuntime) -> Result<(), Fail> {
    for row in &ROWS {
        assert_listed(&rt, rt.alloc(), row)?;
    }
    Ok(())
}

#[test]
fn punctuators_have_spellings(rt: HostRuntime) {
    assert!(rt; punctuator(TokenKind::ShiftLeftAssign) == Some(b"<<=".as_slice()));
    assert!(rt; punctuator(TokenKind::Number).is_none());
}

// The spelling has this id.
fn assert_id(rt: &impl Abort, names: &mut Names, text: &[u8], id: u32) -> Result<(), Fail> {
    let found = names.intern(text)?;
    assert_eq!(rt; found.0, id);
    Ok(())
}

#[test]
fn a_spelling_has_one_id(rt: HostRuntime) -> Result<(), Fail> {
    let mut names = Names::new(rt.alloc())?;
    assert_id(&rt, &mut names, b"if", 1)?;
    assert_id(&rt, &mut names, b"", 0)?;
    assert_id(&rt, &mut names, b"if", 1)
}

// Two spellings, and the kind of the one token that they are side by side.
struct Pair {
    left: &'static [u8],
    right: &'static [u8],
    kind: Option<TokenKind>,
}

#[rattlefmt::skip]
const PAIRS: [Pair; 16] = [
    Pair { left: b"+", right: b"+", kind: Some(TokenKind::PlusPlus) },
    Pair { left: b"+", right: b"*", kind: None },
    Pair { left: b"/", right: b"/", kind: None },
    Pair { left: b"/", right: b"*", kind: None },
    Pair { left: b"L", right: b"'a'", kind: Some(TokenKind::Character) },
    Pair { left: b"u8", right: b"'a'", kind: None },
    Pair { left: b"u8", right: b"\"a\"", kind: Some(TokenKind::String) },
    Pair { left: b".", right: b".", kind: None },
    Pair { left: b"%:", right: b"%:", kind: Some(TokenKind::HashHash) },
    Pair { left: b"1.", right: b"5e+", kind: Some(TokenKind::Number) },
    Pair { left: b"x", right: b"1", kind: Some(TokenKind::Identifier) },
    Pair { left: b"", right: b"x", kind: Some(TokenKind::Identifier) },
    Pair { left: b"", right: b"", kind: None },
    Pair { left: b"<a", right: b">", kind: None },
    Pair { left: b"\"a\\\n", right: b"b\"", kind: None },
    Pair { left: b"a\\", right: b"\n", kind: None },
];

// The two are one token of this kind, or none.
fn assert_joined(rt: &impl Abort, alloc: Global, pair: &Pair) -> Result<(), Fail> {
    let mut names = Names::new(alloc)?;
    let left = names.intern(pair.left)?;
    let right = names.intern(pair.right)?;
    let found = one_token(alloc, &mut names, left, right)?;
    let kind = found.map(|one| one.0);
    assert!(rt; kind == pair.kind);
    Ok(())
}

#[test]
fn two_spellings_are_one_token_or_none(rt: HostRuntime) -> Result<(), Fail> {
    for pair in &PAIRS {
        assert_joined(&rt, rt.alloc(), pair)?;
    }
    Ok(())
}
