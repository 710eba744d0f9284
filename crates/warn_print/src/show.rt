// A unit whose failures are told, and what is looked up in it.
ghost use Rattle.std.specs.Prelude.{◌≡◌, option_map, slice_get, map};
ghost use Rattle.c_tokens.specs.Seen.{text_of};
ghost use Rattle.c_types.specs.Rows.{parameter_types};
ghost use Rattle.c_types.specs.Table.{type_at, type_of_outer, types_in};
ghost use Rattle.meaning_warnings.specs.Places as places;
ghost use Rattle.warn_print.specs.Seen.{identity_in, tag_in};

use c_preproc::UnitTokens;
use c_tokens::{Names, Token, TokenList};
use c_types::{Named, OuterBase, OuterShape, Types};
use sparse_model::{FileNames, NameId, Restrict, Space, TypeId};

/// A unit as its texts need it: the spellings of its ids, its tokens with the paths of its files, and its types.
#[derive(Clone, Copy)]
pub struct Show<'a> {
    pub names: &'a Names,
    pub toks: &'a UnitTokens,
    pub types: &'a Types,
}

/// The spelling of an id; an unknown id has none.
pub(crate) fn spelling_of(names: &Names, id: NameId) -> &[u8]
    ensures { result.now ≡ text_of names.now id }
{
    if (id.0 as usize) < names.len() {
        names.spelling(id)
    } else {
        b""
    }
}

/// The path of the file with this number.
pub(crate) fn path_of<'n>(names: &'n Names, files: &FileNames, file: u32) -> &'n [u8]
    ensures { result.now ≡ places.path_of (map (text_of names.now) files.now) file }
{
    let file = file as usize;
    if file < files.len() {
        spelling_of(names, *files.get(file))
    } else {
        b""
    }
}

/// The token with this index, if there is one.
pub(crate) fn token_in(tokens: &TokenList, index: u32) -> Option<Token>
    ensures { result ≡ slice_get tokens.now index }
{
    let index = index as usize;
    if index < tokens.len() {
        Some(*tokens.get(index))
    } else {
        None
    }
}

/// The name of an aggregate, by its number.
pub(crate) fn tag_of<'a>(names: &'a Names, types: &Types, number: u32) -> Option<&'a [u8]>
    ensures { option_map (λ tag. tag.now) result ≡ tag_in names.now types.now number }
{
    match types.name(Named::Tag(number)) {
        Some(id) => Some(spelling_of(names, id)),
        None => None,
    }
}

/// The name of a restricted identity.
pub(crate) fn name_of<'a>(names: &'a Names, types: &Types, identity: Restrict) -> Option<&'a [u8]>
    ensures { option_map (λ name. name.now) result ≡ identity_in names.now types.now identity.0 }
{
    match types.name(Named::Identity(identity)) {
        Some(id) => Some(spelling_of(names, id)),
        None => None,
    }
}

/// The outermost level of a type; that of an unknown id is `void`.
pub(crate) fn shape_of(types: &Types, t: TypeId) -> OuterShape
    ensures { type_of_outer (types_in types.now) (parameter_types (type_at types.now t)) result ≡ type_at types.now t }
{
    if types.knows(t) {
        types.shape(t)
    } else {
        OuterShape {
            base: OuterBase::Void,
            is_const: false,
            is_volatile: false,
            noderef: false,
            space: Space::None,
        }
    }
}
