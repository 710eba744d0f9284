//! Where the parts of conditional groups end in a file, so that one that is skipped is passed at once (C11 6.10.1
//! p6). Whether one is skipped isn't known here.
ghost use Rattle.std.specs.Prelude.{◌≡◌, ◌∷◌, [], List, ℕ, reverse, IfOk, MatchOption, OnOk};
ghost use Rattle.c_directives.specs.Conditions.{AreKnown};
ghost use Rattle.c_directives.specs.PartEnds.{ArePartEnds, HasEnd, ended_part, followed, innermost, next_open};

use crate::lines::{FilePart, first_part};
use crate::words::{DirectiveName, read_word};
use c_tokens::{Names, Token};
use indexmap::IndexMap;
use std::alloc::{AllocError, Global};

/// A part of a group of which the end wasn't met yet.
#[derive(Clone, Copy, Debug, PartialEq, Eq)]
struct OpenPart {
    /// How many tokens stand behind the line that begins it.
    behind: usize,
    /// It is that behind `#else`.
    last: bool,
}

/// The ends of parts: by how many tokens stand behind the line that begins a part, how many there are from the line
/// that ends it on. A part in which a nested group has something behind its `#else` has none, since that is an
/// error also where it is skipped. It takes time in the tokens.
pub fn part_ends(
    alloc: Global,
    names: &Names,
    tokens: &Vec<Token>,
) -> Result<IndexMap<usize, usize>, AllocError>
    requires { AreKnown names.now tokens.now.items }
    ensures { IfOk result (λ ends. ArePartEnds names.now tokens.now.items ends.entries) }
{
    let mut ends = IndexMap::new(alloc);
    let mut parts = Vec::new(alloc);
    let mut left = tokens.as_slice();
    'directives: while let FilePart::Directive {
        text,
        hash: _,
        rest,
        behind,
    } = first_part(left)
    {
        let at = left.len().saturating_sub(text.len());
        let (name, _line) = read_word(names, rest);
        meet(&mut parts, &mut ends, name, at, behind.len())?;
        left = behind;
    }
    Ok(ends)
}

// What a directive does to the parts that are open: so many tokens are left from its `#` on, and behind its line.
fn meet(
    parts: &mut Vec<OpenPart>,
    ends: &mut IndexMap<usize, usize>,
    name: DirectiveName,
    at: usize,
    behind: usize,
) -> Result<(), AllocError>
    ensures parts { OnOk result (reverse parts.new.items ≡ next_open name behind (reverse parts.old.items)) }
    ensures ends { OnOk result (HasEnd ends.old.entries ends.new.entries (ended_part name (reverse parts.old.items)) at) }
{
    match name {
        DirectiveName::If => begin_group(parts, behind),
        DirectiveName::Ifdef => begin_group(parts, behind),
        DirectiveName::Ifndef => begin_group(parts, behind),
        DirectiveName::Elif => {
            let next = OpenPart {
                behind,
                last: false,
            };
            begin_part(parts, ends, at, Some(next))
        }
        DirectiveName::Else => {
            let next = OpenPart { behind, last: true };
            begin_part(parts, ends, at, Some(next))
        }
        DirectiveName::Endif => begin_part(parts, ends, at, None),
        _ => Ok(()),
    }
}

fn begin_group(parts: &mut Vec<OpenPart>, behind: usize) -> Result<(), AllocError>
    ensures { OnOk result (reverse parts.new.items ≡ next_open DirectiveName.If behind (reverse parts.old.items)) }
{
    parts.push(OpenPart {
        behind,
        last: false,
    })?;
    Ok(())
}

// The part that is open ends, and the next one of its group begins, unless the group ends. Nothing is passed over one that stands
// behind an `#else`.
fn begin_part(
    parts: &mut Vec<OpenPart>,
    ends: &mut IndexMap<usize, usize>,
    at: usize,
    next: Option<OpenPart>,
) -> Result<(), AllocError>
    ensures parts { OnOk result (reverse parts.new.items ≡ followed next (reverse parts.old.items)) }
    ensures ends { OnOk result (HasEnd ends.old.entries ends.new.entries (innermost (reverse parts.old.items)) at) }
{
    let Some(part) = end_part(parts, ends, at)? else {
        return Ok(());
    };
    let Some(next) = next else {
        return Ok(());
    };
    if part.last {
        parts.clear();
        return Ok(());
    }
    parts.push(next)?;
    Ok(())
}

// The innermost part ends, if one is open.
fn end_part(
    parts: &mut Vec<OpenPart>,
    ends: &mut IndexMap<usize, usize>,
    at: usize,
) -> Result<Option<OpenPart>, AllocError>
    ensures parts { IfOk result (λ ended. MatchOption ended
        ((reverse parts.old.items ≡ []) × (reverse parts.new.items ≡ []))
        (λ part. reverse parts.old.items ≡ part ∷ reverse parts.new.items)) }
    ensures ends { IfOk result (λ ended. HasEnd ends.old.entries ends.new.entries ended at) }
{
    let Some(part) = parts.pop() else {
        return Ok(None);
    };
    ends.insert(part.behind, at)?;
    Ok(Some(part))
}
