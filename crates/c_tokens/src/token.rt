// What leaves the scanner: a kind, an id and a place, without any bytes.
use sparse_model::{NameId, Place, Seq, TokenKind};
use std::mem::size_of;

/// A token of a file (C11 6.4).
#[derive(Clone, Copy, Debug, PartialEq, Eq)]
pub struct Token {
    // The small fields stand side by side: fields lie in the order in which they are written.
    pub kind: TokenKind,
    /// White space stands directly before it; comments and new-lines count.
    pub space_before: bool,
    /// It is the first token of its line.
    pub line_start: bool,
    /// The id of its spelling, which has no splices.
    pub name: NameId,
    /// Where its first byte stands.
    pub place: Place,
}

// There are millions of them.
const _: () = prove!(size_of::<Token>() <= 20);

/// Tokens in their order.
pub type TokenList = Seq<Token>;
