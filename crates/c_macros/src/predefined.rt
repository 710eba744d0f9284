// The tokens that stand for the three names without an entry (C11 6.10.8.1).
ghost use Rattle.std.specs.Prelude.{◌≡◌, false, Some, decimal, option_map, slice_get, unwrap_or, codes, IfOk};
ghost use Rattle.meaning_macros.specs.Expansion.{in_place_of, predefined_token};
ghost use Rattle.meaning_macros.specs.Macros.{spelled_file};
ghost use Rattle.sparse_model.specs.declared.ids.NameId.{NameId};
ghost use Rattle.c_tokens.specs.Seen.{Extends, IsKnown};
ghost use Rattle.c_macros.specs.Purpose.{predefined_by};
ghost use Rattle.c_macros.specs.Reading.{HasName, Reading, ReadsNames, hiding_by};
ghost use Rattle.c_macros.specs.Run.{KnowsTable, table_by};
ghost use Rattle.c_macros.specs.Seen.{token_by};

use crate::item::Item;
use crate::purpose::Predefined;
use crate::table::MacroTable;
use c_tokens::{Names, Token};
use itoa::Buffer;
use sparse_model::{NameId, TokenKind};
use std::alloc::AllocError;

/// The token in place of one of the names, where `__COUNTER__` was replaced so often before.
pub(crate) fn predefined_item(
    table: &MacroTable,
    names: &mut Names,
    counter: u32,
    item: &Item,
    name: Predefined,
) -> Result<Item, AllocError>
    requires table { KnowsTable names.old table.now }
    ensures read { IfOk result (λ made. (r : Reading) → ReadsNames names.new r → hiding_by r made ≡ in_place_of (hiding_by r item.now) (predefined_token (table_by r.spelled table.now) counter (token_by r.spelled item.now.token) (predefined_by name))) }
    ensures known { IfOk result (HasName names.new) }
    ensures set { IfOk result (λ made. made.hides ≡ item.now.hides) }
    ensures keeps { Extends names.old names.new }
{
    match name {
        Predefined::FileName => {
            let spelled = file_spelling(table, names, item.token.place.file)?;
            Ok(in_place(item, TokenKind::String, spelled))
        }
        Predefined::LineNumber => {
            let spelled = number_spelling(names, item.token.place.line)?;
            Ok(in_place(item, TokenKind::Number, spelled))
        }
        Predefined::CounterNumber => {
            let spelled = number_spelling(names, counter)?;
            Ok(in_place(item, TokenKind::Number, spelled))
        }
    }
}

fn in_place(item: &Item, kind: TokenKind, name: NameId) -> Item
    ensures { result ≡ record item.now { token = record item.now.token { kind = kind; name = name; line_start = false } } }
{
    Item {
        token: Token {
            kind,
            space_before: item.token.space_before,
            line_start: false,
            name,
            place: item.token.place,
        },
        hides: item.hides,
    }
}

// How a file is spelled: an empty string literal where that wasn't said.
fn file_spelling(table: &MacroTable, names: &mut Names, file: u32) -> Result<NameId, AllocError>
    requires table { KnowsTable names.old table.now }
    ensures read { IfOk result (λ id. (r : Reading) → ReadsNames names.new r → r.spelled id ≡ spelled_file (table_by r.spelled table.now).files file) }
    ensures known { IfOk result (IsKnown names.new) }
    ensures keeps { Extends names.old names.new }
{
    match table.file_spelling(file) {
        Some(spelled) => Ok(spelled),
        None => {
            let spelled = names.intern(b"\"\"")?;
            Ok(spelled)
        }
    }
}

fn number_spelling(names: &mut Names, number: u32) -> Result<NameId, AllocError>
    ensures read { IfOk result (λ id. (r : Reading) → ReadsNames names.new r → r.spelled id ≡ decimal number) }
    ensures known { IfOk result (IsKnown names.new) }
    ensures keeps { Extends names.old names.new }
{
    let mut buffer = Buffer::new();
    names.intern(buffer.format(number).as_bytes())
}
