// Tokens as they are put at the place of a macro's name. Which tokens those are isn't known here.
ghost use Rattle.std.specs.Prelude.{◌≡◌, ◌++◌, ◌∷◌, ◌<◌, [], ℕ, List, All, OnOk, unwrap_or, slice_get, length};
ghost use Rattle.number_sets.specs.NumberSets as sets;
ghost use Rattle.number_sets.specs.declared.sets.SetId.{SetId};
ghost use Rattle.meaning_macros.specs.Hiding.{hides_nothing, no_names, put_at};
ghost use Rattle.c_tokens.specs.Seen.{at_of};
ghost use Rattle.c_macros.specs.Arguments.{HasArguments};
ghost use Rattle.c_macros.specs.Chains.{begin_in, IsSplit, IsWithin, item_at, items_at, item_behind, led_items, token_at};
ghost use Rattle.c_macros.specs.Reading.{HasName, HasSet, Reading, hiding_by};
ghost use Rattle.c_macros.specs.Seen.{token_by};
ghost use Rattle.c_macros.specs.declared.item.Item.{Item};

use crate::arguments::Arguments;
use crate::item::Item;
use c_tokens::Token;
use number_sets::SetId;
use sparse_model::Place;
use std::alloc::AllocError;

/// The argument of a parameter, which is empty for one that has none.
pub(crate) fn argument_of<'a>(arguments: Arguments<'a>, parameter: u32) -> &'a [Item]
    ensures argument { (lists : List (List Item)) → HasArguments arguments.entry lists → result.now ≡ unwrap_or (slice_get lists parameter) [] }
    ensures within { IsWithin result.now arguments.entry.items.now }
{
    let number = parameter as usize;
    if number >= arguments.ends.len() {
        return &arguments.items[..0];
    }
    let first = begin_of(arguments, number);
    let end = arguments.ends[number];
    if first > end {
        return &arguments.items[..0];
    }
    if end > arguments.items.len() {
        return &arguments.items[..0];
    }
    &arguments.items[first..end]
}

// Where the argument with this number begins.
fn begin_of(arguments: Arguments<'_>, number: usize) -> usize
    requires { number < length arguments.ends.now }
    ensures { result ≡ begin_in arguments.entry.first arguments.entry.ends.now number }
{
    if number == 0 {
        return arguments.first;
    }
    arguments.ends[number - 1]
}

/// The item that a token of a body becomes: it hides nothing.
pub(crate) fn own_item(token: Token, place: Place) -> Item
    ensures read { (r : Reading) → ((set : SetId) → set.0 ≡ 0 → r.hidden set ≡ no_names) → hiding_by r result ≡ hides_nothing (put_at (at_of place) (token_by r.spelled token)) }
    ensures name { result.token.name ≡ token.name }
    ensures set { result.hides.0 ≡ 0 }
{
    let token = put_token(token, place);
    Item {
        token,
        hides: SetId(0),
    }
}

fn put_token(token: Token, place: Place) -> Token
    ensures { result ≡ token_at place token }
{
    Token {
        kind: token.kind,
        space_before: token.space_before,
        line_start: false,
        name: token.name,
        place,
    }
}

/// The item at another place, where it begins no line.
pub(crate) fn put_item(item: Item, place: Place) -> Item
    ensures { result ≡ item_at place item }
{
    let token = put_token(item.token, place);
    Item {
        token,
        hides: item.hides,
    }
}

/// Puts the items of an argument behind others.
pub(crate) fn push_all(
    items: &mut Vec<Item>,
    place: Place,
    argument: &[Item],
) -> Result<(), AllocError>
    ensures { OnOk result (items.new.items ≡ items.old.items ++ items_at place argument.now) }
{
    let mut rest = argument;
    while let Some((item, others)) = rest.split_first() {
        items.push(put_item(*item, place))?;
        rest = others;
    }
    Ok(())
}

/// The first item from a position on, if there is one, has exactly this white space before it.
pub(crate) fn lead(items: &mut Vec<Item>, start: usize, space: bool)
    ensures led { (base left : List Item) → IsSplit items.old.items start base left → items.new.items ≡ base ++ led_items space left }
    ensures names { (names : List (List ℕ)) → All (HasName names) items.old.items → All (HasName names) items.new.items }
    ensures sets { (table : sets.Table) → All (HasSet table) items.old.items → All (HasSet table) items.new.items }
{
    if start < items.len() {
        items[start] = led_item(items[start], space);
    }
}

fn led_item(item: Item, space: bool) -> Item
    ensures { result ≡ item_behind space item }
{
    let token = Token {
        kind: item.token.kind,
        space_before: space,
        line_start: item.token.line_start,
        name: item.token.name,
        place: item.token.place,
    };
    Item {
        token,
        hides: item.hides,
    }
}
