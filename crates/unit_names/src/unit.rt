// A unit under names of its own.
ghost use Rattle.std.specs.Prelude.{◌≡◌, List, IfOk, length};
ghost use Rattle.c_tokens.specs.declared.token.Token.{Token};
ghost use Rattle.c_tokens.specs.Seen.{toks_of};
ghost use Rattle.c_preproc.specs.Units.{IsKnownUnit, failures_from};
ghost use Rattle.unit_names.specs.Numbering.{spelled};
ghost use Rattle.unit_names.specs.Same.{BeginsWithTokens, HasSpellings, IsSameUnit};

use crate::numbering::Numbering;
use c_preproc::UnitTokens;
use c_tokens::{Names, Token, TokenList};
use sparse_model::{Failure, FailureList, FileNames};
use std::alloc::{AllocError, Global};

/// A unit with its table of names.
#[derive(Drop)]
pub struct NumberedUnit {
    pub names: Names,
    pub toks: UnitTokens,
    /// How many spellings the tokens have, with the empty one: their ids are below, and those of what is no token follow.
    pub told: u32,
}

// Failures with the names of these tokens.
fn named_failures(
    alloc: Global,
    failures: &[Failure],
    tokens: &[Token],
) -> Result<Vec<Failure>, AllocError>
    requires { length failures.now ≡ length tokens.now }
    ensures { IfOk result (λ list. (others : List Token) → failures.now ≡ failures_from 0 others → list.items ≡ failures_from 0 tokens.now) }
{
    let mut list = Vec::with_capacity(alloc, tokens.len())?;
    for index in 0..tokens.len() {
        let mut failure = failures[index];
        failure.name = tokens[index].name;
        list.push(failure)?;
    }
    Ok(list)
}

/// The unit under a table of its own, which depends on the unit alone: it has the empty spelling, then those of the tokens in the order in
/// which they stand first, then those of the identifiers left in `#if`, and then the paths of files. Each spelling is interned once.
///
/// # Errors
/// Want of memory.
pub fn renumbered(
    alloc: Global,
    names: &Names,
    toks: &UnitTokens,
) -> Result<NumberedUnit, AllocError>
    requires known { IsKnownUnit names.now toks.now }
    requires failures { toks.now.undefs ≡ failures_from 0 toks.now.undef_tokens }
    ensures same { IfOk result (λ found. IsSameUnit names.now found.names toks.now found.toks) }
    ensures table { IfOk result (λ found. HasSpellings found.names (toks_of names.now toks.now.tokens) (toks_of names.now toks.now.undef_tokens) (spelled names.now toks.now.files)) }
    ensures begins { IfOk result (λ found. BeginsWithTokens found.names found.told (toks_of names.now toks.now.tokens)) }
{
    let mut numbering = Numbering::new(alloc, names)?;
    let tokens = numbering.tokens(alloc, names, toks.tokens.as_slice())?;
    let told = numbering.table.len() as u32;
    let undef_tokens = numbering.tokens(alloc, names, toks.undef_tokens.as_slice())?;
    let files = numbering.paths(alloc, names, toks.files.as_slice())?;
    let undefs = named_failures(alloc, toks.undefs.as_slice(), undef_tokens.as_slice())?;
    Ok(NumberedUnit {
        names: numbering.into_table(),
        toks: UnitTokens {
            tokens: TokenList::from_vec(tokens),
            undefs: FailureList::from_vec(undefs),
            undef_tokens: TokenList::from_vec(undef_tokens),
            files: FileNames::from_vec(files),
        },
        told,
    })
}
