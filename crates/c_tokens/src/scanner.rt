// A file's bytes in, all its tokens out, front by front. The grammar isn't known here.
ghost use Rattle.std.specs.Prelude.{◌≡◌, ◌^◌, ◌<◌, ◌≤◌, ◌-◌, List, All, IfOk, IfErr, IfSome, OnOk, length, take, drop, slice_get, vec_len};
ghost use Rattle.meaning_text.specs.Tokens.{Tok, LexesFile, OpensFile};
ghost use Rattle.meaning_text.specs.Tokens as tokens;
ghost use Rattle.meaning_text.specs.Lexing.{lexed_file, Tokens, Refused};
ghost use Rattle.c_tokens.specs.Seen.{Extends, IsKnown, fault_of, spellings_of, toks_of};
ghost use Rattle.c_tokens.specs.Spellings.{with_spelling, with_spellings};
ghost use Rattle.c_tokens.specs.Cursor.{ahead, remaining};

use crate::context::Context;
use crate::cursor::Cursor;
use crate::fault::LexFault;
use crate::front::{Front, front_of};
use crate::names::Names;
use crate::token::Token;
use sparse_model::NameId;
use std::alloc::{AllocError, Global};

/// The tokens of a text (C11 6.4), or the first comment or literal that opens and is never closed.
/// Their spellings join the table of names, which may have grown before a fault too.
pub fn lex(alloc: Global, names: &mut Names, file: u32, text: &[u8]) -> Result<Vec<Token>, LexFault>
    requires { length text.now < 2 ^ 30 }
    ensures tokens { IfOk result (λ tokens. LexesFile file text.now (toks_of names.new tokens.items)) }

    // The text has no other tokens, and no fault.
    ensures only { IfOk result (λ tokens. (others : List Tok) → LexesFile file text.now others
        → others ≡ toks_of names.new tokens.items) }
    ensures no_fault { IfOk result
        (λ _. (fault : tokens.LexFault) → OpensFile file text.now fault → ⊥) }

    // A fault tells what opens and is never closed; want of memory tells nothing of the text.
    ensures fault { IfErr result (λ fault. IfSome (fault_of fault) (OpensFile file text.now)) }

    // The text has no other fault, and no tokens.
    ensures only_fault { IfErr result (λ fault. IfSome (fault_of fault)
        (λ found. (other : tokens.LexFault) → OpensFile file text.now other → other ≡ found)) }
    ensures no_tokens { IfErr result (λ fault. IfSome (fault_of fault)
        (λ _. (tokens : List Tok) → LexesFile file text.now tokens → ⊥)) }

    ensures count { IfOk result (λ tokens. vec_len tokens ≤ length text.now) }
    ensures files { IfOk result (λ tokens. All (λ token. token.place.file ≡ file) tokens.items) }
    ensures known { IfOk result
        (λ tokens. All (λ token. IsKnown names.new token.name) tokens.items) }

    // The table grows by the spellings of the tokens, in their order, and by no others.
    ensures joined { IfOk result (λ tokens. names.new
        ≡ with_spellings names.old (spellings_of (toks_of names.new tokens.items))) }

    // Old ids keep their spelling, at a fault too.
    ensures keeps { Extends names.old names.new }
{
    scan(alloc, names, file, text)
}

// The tokens, or the fault, that the text has by the function that computes them.
fn scan(alloc: Global, names: &mut Names, file: u32, text: &[u8]) -> Result<Vec<Token>, LexFault>
    requires { length text.now < 2 ^ 30 }
    ensures tokens { IfOk result
        (λ tokens. lexed_file file text.now ≡ Tokens (toks_of names.new tokens.items)) }
    ensures fault { IfErr result (λ fault. IfSome (fault_of fault)
        (λ found. lexed_file file text.now ≡ Refused found)) }
    ensures count { IfOk result (λ tokens. vec_len tokens ≤ length text.now) }
    ensures files { IfOk result (λ tokens. All (λ token. token.place.file ≡ file) tokens.items) }
    ensures known { IfOk result
        (λ tokens. All (λ token. IsKnown names.new token.name) tokens.items) }
    ensures joined { IfOk result (λ tokens. names.new
        ≡ with_spellings names.old (spellings_of (toks_of names.new tokens.items))) }
    ensures keeps { Extends names.old names.new }
{
    let mut tokens = Vec::new(alloc);
    let mut spelling = Vec::new(alloc);
    let mut cursor = Cursor::new(file, text);
    let mut context = Context::LineStart;
    let mut space_before = false;
    'fronts: loop {
        let (kind, count) = match front_of(&cursor, context.allows_header_name()) {
            Front::End => return Ok(tokens),
            Front::NewLine => {
                cursor = cursor.next();
                context = Context::LineStart;
                space_before = true;
                continue 'fronts;
            }
            Front::Blank => {
                cursor = cursor.next();
                space_before = true;
                continue 'fronts;
            }
            Front::Comment(count) => {
                cursor = cursor.skip(count);
                space_before = true;
                continue 'fronts;
            }
            Front::OpenComment => return Err(LexFault::OpenComment(cursor.place)),
            Front::OpenLiteral => return Err(LexFault::OpenLiteral(cursor.place)),
            Front::Token(kind, count) => (kind, count),
        };
        let (name, behind) = named(&cursor, count, names, &mut spelling)?;
        tokens.push(Token {
            kind,
            name,
            place: cursor.place,
            space_before,
            line_start: context.is_line_start(),
        })?;
        context = context.behind(kind, names.spelling(name));
        space_before = false;
        cursor = behind;
    }
}

// The id of the next so many bytes, and the cursor behind them. The buffer is for those that have a
// splice among them.
fn named<'t>(
    cursor: &Cursor<'t>,
    count: usize,
    names: &mut Names,
    spelling: &mut Vec<u8>,
) -> Result<(NameId, Cursor<'t>), AllocError>
    ensures stands { IfOk result (λ found. slice_get names.new found.0.0 ≡ Some (take count (ahead cursor.now))) }
    ensures table { OnOk result (names.new ≡ with_spelling names.old (take count (ahead cursor.now))) }
    ensures known { IfOk result (λ found. IsKnown names.new found.0) }
    ensures keeps { Extends names.old names.new }
    ensures behind { IfOk result (λ found. remaining found.1 ≡ drop count (remaining cursor.now)) }
    ensures shorter { IfOk result (λ found. length found.1.bytes.now ≤ length cursor.now.bytes.now - count) }
    ensures file { IfOk result (λ found. found.1.place.file ≡ cursor.now.place.file) }
{
    if let Some((front, behind)) = cursor.plain(count) {
        let name = names.intern(front)?;
        return Ok((name, behind));
    }
    spelling.clear();
    let behind = cursor.spell(count, spelling)?;
    let name = names.intern(spelling)?;
    Ok((name, behind))
}
