// Punctuators side by side, as `lex` and a second, plain scanner find them.
use c_tokens::{Names, lex};
use sparse_model::TokenKind;
use std::alloc::Global;
use std::process::Abort;
use std::test::Fail;

// A punctuator or a digraph (C11 6.4.6), and the kind of its token.
struct Row {
    spelling: &'static str,
    kind: TokenKind,
}

#[rattlefmt::skip]
const ROWS: [Row; 54] = [
    Row { spelling: "[", kind: TokenKind::LeftBracket },
    Row { spelling: "]", kind: TokenKind::RightBracket },
    Row { spelling: "(", kind: TokenKind::LeftParenthesis },
    Row { spelling: ")", kind: TokenKind::RightParenthesis },
    Row { spelling: "{", kind: TokenKind::LeftBrace },
    Row { spelling: "}", kind: TokenKind::RightBrace },
    Row { spelling: ".", kind: TokenKind::Dot },
    Row { spelling: "->", kind: TokenKind::Arrow },
    Row { spelling: "++", kind: TokenKind::PlusPlus },
    Row { spelling: "--", kind: TokenKind::MinusMinus },
    Row { spelling: "&", kind: TokenKind::Ampersand },
    Row { spelling: "*", kind: TokenKind::Star },
    Row { spelling: "+", kind: TokenKind::Plus },
    Row { spelling: "-", kind: TokenKind::Minus },
    Row { spelling: "~", kind: TokenKind::Tilde },
    Row { spelling: "!", kind: TokenKind::Exclamation },
    Row { spelling: "/", kind: TokenKind::Slash },
    Row { spelling: "%", kind: TokenKind::Percent },
    Row { spelling: "<<", kind: TokenKind::ShiftLeft },
    Row { spelling: ">>", kind: TokenKind::ShiftRight },
    Row { spelling: "<", kind: TokenKind::Less },
    Row { spelling: ">", kind: TokenKind::Greater },
    Row { spelling: "<=", kind: TokenKind::LessEqual },
    Row { spelling: ">=", kind: TokenKind::GreaterEqual },
    Row { spelling: "==", kind: TokenKind::EqualEqual },
    Row { spelling: "!=", kind: TokenKind::NotEqual },
    Row { spelling: "^", kind: TokenKind::Caret },
    Row { spelling: "|", kind: TokenKind::Bar },
    Row { spelling: "&&", kind: TokenKind::AndAnd },
    Row { spelling: "||", kind: TokenKind::OrOr },
    Row { spelling: "?", kind: TokenKind::Question },
    Row { spelling: ":", kind: TokenKind::Colon },
    Row { spelling: ";", kind: TokenKind::Semicolon },
    Row { spelling: "...", kind: TokenKind::Ellipsis },
    Row { spelling: "=", kind: TokenKind::Assign },
    Row { spelling: "*=", kind: TokenKind::StarAssign },
    Row { spelling: "/=", kind: TokenKind::SlashAssign },
    Row { spelling: "%=", kind: TokenKind::PercentAssign },
    Row { spelling: "+=", kind: TokenKind::PlusAssign },
    Row { spelling: "-=", kind: TokenKind::MinusAssign },
    Row { spelling: "<<=", kind: TokenKind::ShiftLeftAssign },
    Row { spelling: ">>=", kind: TokenKind::ShiftRightAssign },
    Row { spelling: "&=", kind: TokenKind::AndAssign },
    Row { spelling: "^=", kind: TokenKind::XorAssign },
    Row { spelling: "|=", kind: TokenKind::OrAssign },
    Row { spelling: ",", kind: TokenKind::Comma },
    Row { spelling: "#", kind: TokenKind::Hash },
    Row { spelling: "##", kind: TokenKind::HashHash },
    Row { spelling: "<:", kind: TokenKind::LeftBracket },
    Row { spelling: ":>", kind: TokenKind::RightBracket },
    Row { spelling: "<%", kind: TokenKind::LeftBrace },
    Row { spelling: "%>", kind: TokenKind::RightBrace },
    Row { spelling: "%:", kind: TokenKind::Hash },
    Row { spelling: "%:%:", kind: TokenKind::HashHash },
];

// Of the rows with which the text begins, the longest.
fn longest(text: &[u8]) -> Option<&'static Row> {
    let mut best: Option<&'static Row> = None;
    for row in &ROWS {
        let length = best.map_or(0, |found| found.spelling.len());
        if text.starts_with(row.spelling.as_bytes()) && row.spelling.len() > length {
            best = Some(row);
        }
    }
    best
}

// What `lex` finds in these two side by side is what this finds: at each place the longest row, and
// nothing in a comment.
fn assert_pair(rt: &impl Abort, alloc: Global, left: &str, right: &str) -> Result<(), Fail> {
    let text = format!(in alloc; "{left}{right}")?;
    let mut rest = text.as_bytes();
    assert!(rt; rest.len() < 16);
    let opens_comment = rest.starts_with(b"/*");
    let mut names = Names::new(alloc)?;
    let Ok(tokens) = lex(alloc, &mut names, 1, rest) else {
        assert!(rt; opens_comment, "{text}");
        return Ok(());
    };
    assert!(rt; !opens_comment, "{text}");
    for token in &tokens {
        assert!(rt; !rest.starts_with(b"//"), "{text}");
        let row = longest(rest);
        assert!(rt; row.map(|found| found.kind) == Some(token.kind), "{text}");
        let spelling = row.map_or(b"".as_slice(), |found| found.spelling.as_bytes());
        assert!(rt; names.spelling(token.name) == spelling, "{text}");
        rest = rest.strip_prefix(spelling).unwrap_or(b"");
    }
    assert!(rt; rest.is_empty() || rest.starts_with(b"//"), "{text}");
    Ok(())
}

#[test]
fn punctuators_side_by_side(rt: HostRuntime) -> Result<(), Fail> {
    for left in &ROWS {
        for right in &ROWS {
            assert_pair(&rt, rt.alloc(), left.spelling, right.spelling)?;
        }
    }
    Ok(())
}
