// What stands behind the word of an item: the tokens behind it arrive, and those between its parentheses leave, if there are any.
// What they mean isn't known here.
ghost use Rattle.std.specs.Prelude.{◌≡◌};
ghost use Rattle.meaning_attributes.specs.Items.{arguments_inside, arguments_of};
ghost use Rattle.c_attrs.specs.Seen.{significant};
ghost use Rattle.c_attrs.specs.Meanings.{arguments_seen};

use crate::token::{is_closing, is_opening, split_first, split_last};
use c_tokens::{Names, Token};

/// The tokens behind the word of an item.
#[derive(Clone, Copy)]
pub(crate) enum Arguments<'t> {
    None,
    /// What stands between parentheses.
    Between(&'t [Token]),
    /// What the grammar doesn't derive there.
    Other,
}

/// What the tokens behind a word are.
pub(crate) fn arguments_of<'t>(names: &Names, toks: &'t [Token]) -> Arguments<'t>
    ensures { arguments_seen names.now result ≡ arguments_of (significant names.now toks.now) }
{
    let Some((first, behind)) = split_first(names, toks) else {
        return Arguments::None;
    };
    if !is_opening(first.kind) {
        return Arguments::Other;
    }
    arguments_inside(names, behind)
}

// What stands behind an opening parenthesis.
#[tactic(auto, using(crate::proofs::ArgumentLemmas::arguments_inside_last))]
fn arguments_inside<'t>(names: &Names, toks: &'t [Token]) -> Arguments<'t>
    ensures { arguments_seen names.now result ≡ arguments_inside (significant names.now toks.now) }
{
    let Some((last, between)) = split_last(names, toks) else {
        return Arguments::Other;
    };
    if is_closing(last.kind) {
        Arguments::Between(between)
    } else {
        Arguments::Other
    }
}
