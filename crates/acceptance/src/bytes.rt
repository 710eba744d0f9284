// Each byte in each state of a text, by what a check of the whole text answers.
use crate::run::{assert_ran, check};
use ksparse::Exit;
use std::alloc::{AllocError, Global};
use std::test::Fail;

// What an error says of a text.
#[derive(Clone, Copy)]
enum Told {
    // The byte isn't expected.
    Byte,
    // The whole text, which is one token, isn't expected.
    Text,
    // This.
    Line(&'static str),
}

impl Told {
    fn text(self, alloc: Global, text: &[u8], byte: u8) -> Result<Vec<u8>, AllocError> {
        match self {
            Told::Byte => unexpected(alloc, &[byte]),
            Told::Text => unexpected(alloc, text),
            Told::Line(told) => Vec::from_slice(alloc, told.as_bytes()),
        }
    }
}

// The error of a token that isn't expected.
fn unexpected(alloc: Global, token: &[u8]) -> Result<Vec<u8>, AllocError> {
    let mut told = Vec::from_slice(alloc, b"error[20]: syntax error: unexpected '")?;
    told.extend_from_slice(token)?;
    told.push(b'\'')?;
    Ok(told)
}

const END_OF_FILE: Told = Told::Line("error[20]: syntax error: unexpected end of file");

const UNEXPECTED_B: Told = Told::Line("error[20]: syntax error: unexpected 'b'");

const B_IS_NOT_DECLARED: Told = Told::Line("error[21]: 'b' is not declared");

const BAD_DECLARATION: Told = Told::Line("error[28]: bad declaration");

const NO_TYPE: Told = Told::Line("error[32]: unsupported: parameter without a type");

// What a text with one byte in it is answered by.
#[derive(Clone, Copy)]
enum Answer {
    // It has no tokens, and isn't refused.
    Empty,
    // An error stands in this line and column.
    Refused(u32, u32, Told),
}

impl Answer {
    // The literal that opens in this column is never closed.
    fn opens(column: u32) -> Self {
        Answer::Refused(1, column, Told::Line("error[4]: unterminated literal"))
    }

    fn exit(self) -> Exit {
        match self {
            Answer::Empty => Exit::Clean,
            Answer::Refused(_, _, _) => Exit::Refused,
        }
    }

    fn err(self, alloc: Global, text: &[u8], byte: u8) -> Result<Vec<u8>, AllocError> {
        let Answer::Refused(line, column, told) = self else {
            return Ok(Vec::new(alloc));
        };
        let place = format!(in alloc; "t.c:{line}:{column}: ")?;
        let mut err = Vec::from_slice(alloc, place.as_bytes())?;
        err.extend_from_slice(told.text(alloc, text, byte)?.as_slice())?;
        err.push(b'\n')?;
        Ok(err)
    }
}

// Where a byte stands in a text.
#[derive(Clone, Copy, Debug, PartialEq, Eq)]
enum State {
    BetweenTokens,
    InWord,
    InNumber,
    InCharacter,
    InString,
    InLineComment,
    InComment,
    BehindBackslash,
}

impl State {
    // What stands before the byte, and behind it.
    fn around(self) -> (&'static str, &'static str) {
        match self {
            State::BetweenTokens => ("", ""),
            State::InWord => ("int a", "b"),
            State::InNumber => ("1", "2"),
            State::InCharacter => ("'", "'"),
            State::InString => ("\"", "\""),
            State::InLineComment => ("//", ""),
            State::InComment => ("/*", "*/"),
            State::BehindBackslash => ("\\", ""),
        }
    }

    fn answer(self, byte: u8) -> Answer {
        match self {
            State::BetweenTokens => between_tokens(byte),
            State::InWord => in_word(byte),
            State::InNumber => in_number(byte),
            State::InCharacter => in_literal(byte, b'\''),
            State::InString => in_literal(byte, b'"'),
            State::InLineComment | State::InComment => Answer::Empty,
            State::BehindBackslash => behind_backslash(byte),
        }
    }
}

// A name, a star and a parenthesis begin a declarator, which has no type.
fn between_tokens(byte: u8) -> Answer {
    match byte {
        b' ' | b'\t' | b'\n' | 0x0b | 0x0c => Answer::Empty,
        // A directive that does nothing.
        b'#' => Answer::Empty,
        b'\'' | b'"' => Answer::opens(1),
        b';' => Answer::Empty,
        b'(' | b'*' | b'_' | b'A'..=b'Z' | b'a'..=b'z' => Answer::Refused(1, 1, BAD_DECLARATION),
        _ => Answer::Refused(1, 1, Told::Byte),
    }
}

// `a` is a declarator: what may stand behind one is taken, and then `b` comes.
fn in_word(byte: u8) -> Answer {
    match byte {
        b'\'' | b'"' => Answer::opens(6),
        b'0'..=b'9' | b'_' | b'A'..=b'Z' | b'a'..=b'z' => Answer::Refused(1, 5, END_OF_FILE),
        b',' => Answer::Refused(1, 7, END_OF_FILE),
        b'(' => Answer::Refused(1, 7, NO_TYPE),
        b';' => Answer::Refused(1, 7, BAD_DECLARATION),
        b'{' => Answer::Refused(1, 6, BAD_DECLARATION),
        b'=' | b'[' => Answer::Refused(1, 7, B_IS_NOT_DECLARED),
        b' ' | b'\t' | 0x0b | 0x0c => Answer::Refused(1, 7, UNEXPECTED_B),
        b'\n' => Answer::Refused(2, 1, UNEXPECTED_B),
        _ => Answer::Refused(1, 6, Told::Byte),
    }
}

// A point or an exponent makes a floating constant of it.
fn in_number(byte: u8) -> Answer {
    match byte {
        b'\'' | b'"' => Answer::opens(2),
        b'.' | b'E' | b'e' => {
            Answer::Refused(1, 1, Told::Line("error[30]: unsupported: floating type"))
        }
        b'0'..=b'9' | b'_' | b'A'..=b'Z' | b'a'..=b'z' => Answer::Refused(1, 1, Told::Text),
        _ => Answer::Refused(1, 1, Told::Line("error[20]: syntax error: unexpected '1'")),
    }
}

// A new-line ends the line before the literal ends, and a backslash takes the mark that would end it;
// a mark ends it, so that the one behind it opens another.
fn in_literal(byte: u8, quote: u8) -> Answer {
    if byte == b'\n' || byte == b'\\' {
        Answer::opens(1)
    } else if byte == quote {
        Answer::opens(3)
    } else {
        Answer::Refused(1, 1, Told::Text)
    }
}

// Both are joined to nothing where a new-line ends the line.
fn behind_backslash(byte: u8) -> Answer {
    match byte {
        b'\n' => Answer::Empty,
        b'\'' | b'"' => Answer::opens(2),
        _ => Answer::Refused(1, 1, Told::Line("error[20]: syntax error: unexpected '\\'")),
    }
}

const STATES: [State; 8] = [
    State::BetweenTokens,
    State::InWord,
    State::InNumber,
    State::InCharacter,
    State::InString,
    State::InLineComment,
    State::InComment,
    State::BehindBackslash,
];

#[test]
fn each_byte_in_each_state(rt: HostRuntime) -> Result<(), Fail> {
    for state in STATES {
        let (before, behind) = state.around();
        for byte in 0..=u8::MAX {
            let mut text = Vec::from_slice(rt.alloc(), before.as_bytes())?;
            text.push(byte)?;
            text.extend_from_slice(behind.as_bytes())?;
            let case = format!(in rt.alloc(); "byte {byte} {state:?}")?;
            let answer = state.answer(byte);
            let err = answer.err(rt.alloc(), text.as_slice(), byte)?;
            let ran = check(rt.alloc(), text.as_slice())?;
            assert_ran(&rt, case.as_str(), &ran, answer.exit(), err.as_slice());
        }
    }
    Ok(())
}
