// The string literal that `#` makes of an argument (C11 6.10.3.2 p2). Where it goes isn't known here.
ghost use Rattle.std.specs.Prelude.{◌≡◌, ◌++◌, ◌∷◌, [], ◌==◌, ◌||◌, if◌then◌else◌, false, All, IfOk, OnOk};
ghost use Rattle.vocabulary.specs.declared.token_kind.TokenKind.TheVariants.{String};
ghost use Rattle.meaning_text.specs.Bytes as bytes;
ghost use Rattle.meaning_macros.specs.Signs.{is_literal_kind};
ghost use Rattle.meaning_macros.specs.Stringizing.{argument_text, spelled_within, string_of_argument, text_behind, with_backslashes};
ghost use Rattle.c_tokens.specs.Seen.{Extends, IsKnown, at_of};
ghost use Rattle.c_macros.specs.Reading.{HasName, Reading, ReadsNames, hiding_by, hidings_by};
ghost use Rattle.c_macros.specs.Seen.{token_by};

use crate::item::Item;
use c_tokens::{Names, Token};
use number_sets::SetId;
use sparse_model::{NameId, Place, TokenKind};
use std::alloc::{AllocError, Global};

/// The length from which on a spelling is too long to be read again.
const MAX_LENGTH: usize = 1 << 30;

/// The string literal that spells an argument, at the place of the macro's name. It hides nothing.
pub(crate) fn stringized(
    alloc: Global,
    names: &mut Names,
    argument: &[Item],
    place: Place,
) -> Result<Item, AllocError>
    requires { All (HasName names.old) argument.now }
    ensures made { IfOk result (λ item. (r : Reading) → ReadsNames names.new r → hiding_by r item ≡ string_of_argument (at_of place) (hidings_by r argument.now)) }
    ensures known { IfOk result (HasName names.new) }
    ensures set { IfOk result (λ item. item.hides.0 ≡ 0) }
    ensures keeps { Extends names.old names.new }
{
    let text = string_text(alloc, names, argument)?;
    if text.len() >= MAX_LENGTH {
        return Err(AllocError);
    }
    let name = names.intern(&text)?;
    Ok(string_item(name, place))
}

fn string_item(name: NameId, place: Place) -> Item
    ensures token { result.token ≡ record { kind = String; space_before = false; line_start = false; name = name; place = place } }
    ensures set { result.hides.0 ≡ 0 }
{
    let token = Token {
        kind: TokenKind::String,
        space_before: false,
        line_start: false,
        name,
        place,
    };
    Item {
        token,
        hides: SetId(0),
    }
}

// The spelling of the literal.
fn string_text(alloc: Global, names: &Names, argument: &[Item]) -> Result<Vec<u8>, AllocError>
    requires { All (HasName names.now) argument.now }
    ensures { IfOk result (λ text. (r : Reading) → ReadsNames names.now r → text.items ≡ bytes.double_quote ∷ (argument_text (hidings_by r argument.now) ++ bytes.double_quote ∷ [])) }
{
    let mut text = Vec::new(alloc);
    push_byte(&mut text, b'"')?;
    push_argument(&mut text, names, argument)?;
    push_byte(&mut text, b'"')?;
    Ok(text)
}

fn push_byte(text: &mut Vec<u8>, byte: u8) -> Result<(), AllocError>
    ensures { OnOk result (text.new.items ≡ text.old.items ++ byte ∷ []) }
{
    text.push(byte)?;
    Ok(())
}

// Neither white space before the first nor behind the last.
fn push_argument(text: &mut Vec<u8>, names: &Names, argument: &[Item]) -> Result<(), AllocError>
    requires { All (HasName names.now) argument.now }
    ensures { (r : Reading) → ReadsNames names.now r → OnOk result (text.new.items ≡ text.old.items ++ argument_text (hidings_by r argument.now)) }
{
    let Some((first, others)) = argument.split_first() else {
        return Ok(());
    };
    push_within(text, names, first.token)?;
    push_behind(text, names, others)?;
    Ok(())
}

// One space for any white space before each token.
fn push_behind(text: &mut Vec<u8>, names: &Names, items: &[Item]) -> Result<(), AllocError>
    requires { All (HasName names.now) items.now }
    ensures { (r : Reading) → ReadsNames names.now r → OnOk result (text.new.items ≡ text.old.items ++ text_behind (hidings_by r items.now)) }
{
    let mut rest = items;
    while let Some((item, others)) = rest.split_first() {
        push_space(text, item.token.space_before)?;
        push_within(text, names, item.token)?;
        rest = others;
    }
    Ok(())
}

fn push_space(text: &mut Vec<u8>, space: bool) -> Result<(), AllocError>
    ensures { OnOk result (text.new.items ≡ text.old.items ++ (if space then bytes.space ∷ [] else [])) }
{
    if space {
        text.push(b' ')?;
        return Ok(());
    }
    Ok(())
}

// The token, as it is spelled within the literal.
fn push_within(text: &mut Vec<u8>, names: &Names, token: Token) -> Result<(), AllocError>
    requires { IsKnown names.now token.name }
    ensures { (r : Reading) → ReadsNames names.now r → OnOk result (text.new.items ≡ text.old.items ++ spelled_within (token_by r.spelled token)) }
{
    let spelling = names.spelling(token.name);
    if is_literal(token.kind) {
        push_with_backslashes(text, spelling)?;
        return Ok(());
    }
    text.extend_from_slice(spelling)?;
    Ok(())
}

fn is_literal(kind: TokenKind) -> bool
    ensures { result ≡ is_literal_kind kind }
{
    match kind {
        TokenKind::Character => true,
        TokenKind::String => true,
        _ => false,
    }
}

fn push_with_backslashes(text: &mut Vec<u8>, spelling: &[u8]) -> Result<(), AllocError>
    ensures { OnOk result (text.new.items ≡ text.old.items ++ with_backslashes spelling.now) }
{
    let mut rest = spelling;
    while let Some((byte, others)) = rest.split_first() {
        push_with_backslash(text, *byte)?;
        rest = others;
    }
    Ok(())
}

fn push_with_backslash(text: &mut Vec<u8>, byte: u8) -> Result<(), AllocError>
    ensures { OnOk result (text.new.items ≡ text.old.items ++ (if byte == bytes.double_quote || byte == bytes.backslash then bytes.backslash ∷ byte ∷ [] else byte ∷ [])) }
{
    if byte == b'"' || byte == b'\\' {
        text.push(b'\\')?;
        text.push(byte)?;
        return Ok(());
    }
    text.push(byte)?;
    Ok(())
}
