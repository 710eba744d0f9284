// Where what is told of a unit stands, and the line of a constraint.
ghost use Rattle.std.specs.Prelude.{◌≡◌, ℕ, IfOk, List, slice_get};
ghost use Rattle.c_tokens.specs.Seen.{at_of, toks_of};
ghost use Rattle.meaning_warnings.specs.Places.{begins_at};
ghost use Rattle.unit_commands.specs.Constraints.{constraint_line, path_id};

use c_preproc::UnitTokens;
use c_tokens::{Names, TokenList};
use expression_rows::Broken;
use sparse_model::{FileNames, NameId, Place};
use std::alloc::{AllocError, Global};
use warn_print::error_text;

/// The number of the checked file.
const MAIN_FILE: u32 = 1;

/// An id that no name has: it is spelled as nothing.
const NO_NAME: NameId = NameId(u32::MAX);

/// Where the token with this index begins; where there is none, the beginning of the checked file.
pub(crate) fn place_of(tokens: &TokenList, index: u32) -> Place
    ensures { (names : List (List ℕ)) → at_of result ≡ begins_at (slice_get (toks_of names tokens.now) index) }
{
    let index = index as usize;
    if index < tokens.len() {
        tokens.get(index).place
    } else {
        Place {
            file: MAIN_FILE,
            line: 1,
            column: 1,
        }
    }
}

// The path of the file with this number.
fn path_id(files: &FileNames, file: u32) -> NameId
    ensures { result ≡ path_id files.now file }
{
    let file = file as usize;
    if file < files.len() {
        *files.get(file)
    } else {
        NO_NAME
    }
}

/// The line of a constraint that is broken.
pub(crate) fn constraint_text(
    alloc: Global,
    names: &Names,
    toks: &UnitTokens,
    broken: Broken,
) -> Result<Vec<u8>, AllocError>
    ensures { IfOk result (λ text. text.items ≡ constraint_line names.now toks.now broken) }
{
    let place = place_of(&toks.tokens, broken.token);
    let path = path_id(&toks.files, place.file);
    error_text(alloc, names, path, broken.constraint, place, broken.name)
}
