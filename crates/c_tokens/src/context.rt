// What is remembered of the tokens so far, to tell a header name from other tokens.
ghost use Rattle.std.specs.Prelude.{◌≡◌};
ghost use Rattle.meaning_text.specs.Tokens.{allows_header_name, behind_token, is_hash, is_line_start};

use sparse_model::TokenKind;

/// What the tokens before make of a place: header names exist directly behind `include` directly
/// behind the `#` that is first in its line (C11 6.4 p4, 6.10 p2).
#[derive(Clone, Copy)]
pub(crate) enum Context {
    LineStart,
    BehindHash,
    BehindInclude,
    Elsewhere,
}

impl Context {
    ghost use Rattle.c_tokens.specs.Context.{context_of};

    pub(crate) fn allows_header_name(self) -> bool
        ensures { result ≡ allows_header_name (context_of self) }
    {
        matches!(self, Context::BehindInclude)
    }

    pub(crate) fn is_line_start(self) -> bool
        ensures { result ≡ is_line_start (context_of self) }
    {
        matches!(self, Context::LineStart)
    }

    /// What a token of this kind and spelling makes of the place behind it.
    pub(crate) fn behind(self, kind: TokenKind, spelling: &[u8]) -> Context
        ensures { context_of result ≡ behind_token (context_of self) kind spelling.now }
    {
        match self {
            Context::LineStart => {
                if is_hash(kind) {
                    Context::BehindHash
                } else {
                    Context::Elsewhere
                }
            }
            Context::BehindHash => {
                if spelling == b"include".as_slice() {
                    Context::BehindInclude
                } else {
                    Context::Elsewhere
                }
            }
            Context::BehindInclude => Context::Elsewhere,
            Context::Elsewhere => Context::Elsewhere,
        }
    }
}

// `#`, also where it is spelled as a digraph.
fn is_hash(kind: TokenKind) -> bool
    ensures { result ≡ is_hash kind }
{
    matches!(kind, TokenKind::Hash)
}
