// Address spaces and alignments: the one token between parentheses arrives, and what it says leaves. Which type it is said of
// isn't known here.
ghost use Rattle.std.specs.Prelude.{◌≡◌, ◌≤◌, List, ℕ, true};
ghost use Rattle.meaning_attributes.specs.Items.{align_numbered, align_of, is_alignment, space_at, space_of};
ghost use Rattle.c_tokens.specs.Seen.{tok_of};
ghost use Rattle.c_attrs.specs.Meanings.{arguments_seen, meaning_seen};

use crate::arguments::Arguments;
use crate::attribute::Attribute;
use crate::meaning::{Bad, Meaning};
use crate::token::{is_identifier, lone_number, number_at, only_token};
use c_tokens::{Names, Token};
use sparse_model::Space;

// The greatest number of an address space.
const GREATEST_SPACE: u64 = 4_294_967_295;

// The powers of 2 up to 65536.
#[rattlefmt::skip]
const ALIGNMENTS: [u64; 17] = [1, 2, 4, 8, 16, 32, 64, 128, 256, 512, 1024, 2048, 4096, 8192, 16384, 32768, 65536];

// The alignment of `aligned` without arguments.
const ALIGNMENT_UNSAID: u32 = 16;

/// The space that is named or numbered.
pub(crate) fn space_of(names: &Names, arguments: Arguments<'_>) -> Meaning
    ensures { meaning_seen names.now result ≡ space_of (arguments_seen names.now arguments.entry) }
{
    let Arguments::Between(toks) = arguments else {
        return Meaning::Bad(Bad::Space);
    };
    match only_token(names, toks) {
        Some(token) => space_at(names, token),
        None => Meaning::Bad(Bad::Space),
    }
}

// The space that a token names or numbers; a keyword is a name too.
fn space_at(names: &Names, token: Token) -> Meaning
    ensures { meaning_seen names.now result ≡ space_at (tok_of names.now token) }
{
    if is_identifier(token.kind) {
        return Meaning::Means(Attribute::Space(Space::Named(token.name)));
    }
    match number_at(names, token) {
        Some(number) if number <= GREATEST_SPACE => {
            Meaning::Means(Attribute::Space(Space::Number(number as u32)))
        }
        _ => Meaning::Bad(Bad::Space),
    }
}

/// The alignment that is written.
pub(crate) fn align_of(names: &Names, arguments: Arguments<'_>) -> Meaning
    ensures { meaning_seen names.now result ≡ align_of (arguments_seen names.now arguments.entry) }
{
    match arguments {
        Arguments::None => Meaning::Means(Attribute::Align(ALIGNMENT_UNSAID)),
        Arguments::Between(toks) => align_numbered(lone_number(names, toks)),
        Arguments::Other => Meaning::Bad(Bad::Align),
    }
}

fn align_numbered(number: Option<u64>) -> Meaning
    ensures { (names : List (List ℕ)) → meaning_seen names result ≡ align_numbered number }
{
    match number {
        Some(number) if is_alignment(number) => Meaning::Means(Attribute::Align(number as u32)),
        _ => Meaning::Bad(Bad::Align),
    }
}

// A power of 2 up to 65536.
fn is_alignment(number: u64) -> bool
    ensures alignment { result ≡ is_alignment number }
    ensures small { result ≡ true → number ≤ 65536 }
{
    ALIGNMENTS.contains(&number)
}
