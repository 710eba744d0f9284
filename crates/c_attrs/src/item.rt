// The items of an attribute list: the tokens of one arrive, and what it means leaves. What the list is of isn't known here.
ghost use Rattle.std.specs.Prelude.{◌≡◌, option_map};
ghost use Rattle.meaning_attributes.specs.Items.{attribute_of, meaning_of};
ghost use Rattle.c_tokens.specs.Seen.{toks_of};
ghost use Rattle.c_attrs.specs.Seen.{attribute_seen};
ghost use Rattle.c_attrs.specs.Meanings.{meaning_seen};

use crate::arguments::arguments_of;
use crate::attribute::Attribute;
use crate::context::context_with;
use crate::meaning::Meaning;
use crate::space::{align_of, space_of};
use crate::token::{spelling, split_first};
use crate::word::{Word, attribute_word};
use c_tokens::{Names, Token};

/// The attribute of one item with these tokens: a word, and perhaps tokens between its parentheses. None
/// where it means nothing, where it is bad, and where it passes the limit of a step, as [`crate::read_attrs`]
/// tells. It takes no memory, and time that is linear in the tokens.
pub fn read_item(names: &Names, toks: &[Token]) -> Option<Attribute>
    ensures { option_map (attribute_seen names.now) result ≡ attribute_of (toks_of names.now toks.now) }
{
    match meaning_of(names, toks) {
        Meaning::Means(attribute) => Some(attribute),
        Meaning::Nothing | Meaning::Bad(_) | Meaning::PassesLimit => None,
    }
}

/// What an item of these tokens means.
pub(crate) fn meaning_of(names: &Names, toks: &[Token]) -> Meaning
    ensures { meaning_seen names.now result ≡ meaning_of (toks_of names.now toks.now) }
{
    let Some((word, behind)) = split_first(names, toks) else {
        return Meaning::Nothing;
    };
    match attribute_word(spelling(names, word.name)) {
        Word::AddressSpace => space_of(names, arguments_of(names, behind)),
        Word::Context => context_with(names, arguments_of(names, behind)),
        Word::Aligned => align_of(names, arguments_of(names, behind)),
        Word::Flag(flag) => Meaning::Means(Attribute::Flag(flag)),
        Word::Other => Meaning::Nothing,
    }
}
