//! The words of an `#error` (C11 6.10.5).
ghost use Rattle.std.specs.Prelude.{◌≡◌, All, IfOk};
ghost use Rattle.meaning_preprocessing.specs.Directives.{error_words};
ghost use Rattle.c_tokens.specs.Seen.{Extends, IsKnown, text_of, toks_of};

use c_tokens::{Names, Token};
use sparse_model::NameId;
use std::alloc::{AllocError, Global};

/// The words, each with a space before it, as one spelling of the table.
pub fn intern_words(alloc: Global, names: &mut Names, line: &[Token]) -> Result<NameId, AllocError>
    requires { All (λ token. IsKnown names.old token.name) line.now }
    ensures words { IfOk result (λ word. text_of names.new word ≡ error_words (toks_of names.old line.now)) }
    ensures known { IfOk result (IsKnown names.new) }
    ensures keeps { Extends names.old names.new }
{
    let words = spelled_words(alloc, names, line)?;
    let word = names.intern(&words)?;
    Ok(word)
}

fn spelled_words(alloc: Global, names: &Names, line: &[Token]) -> Result<Vec<u8>, AllocError>
    requires { All (λ token. IsKnown names.now token.name) line.now }
    ensures { IfOk result (λ words. words.items ≡ error_words (toks_of names.now line.now)) }
{
    let mut words = Vec::new(alloc);
    let mut left = line;
    while let Some((token, others)) = left.split_first() {
        words.push(b' ')?;
        words.extend_from_slice(names.spelling(token.name))?;
        left = others;
    }
    Ok(words)
}
