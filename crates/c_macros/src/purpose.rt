// What the next token of a run is for. What becomes of it isn't known here.
ghost use Rattle.std.specs.Prelude.{◌≡◌, ◌<◌, ◌&&◌, ◌++◌, ℕ, List, IsTrue, not, length};
ghost use Rattle.meaning_macros.specs.Macros.{predefined_of};
ghost use Rattle.meaning_macros.specs.Signs.{is_identifier_kind};
ghost use Rattle.c_macros.specs.Purpose.{Purposed, opens_with, purpose_of_predefined};
ghost use Rattle.c_macros.specs.Reading.{HasName, HasSet, Reading, Reads};
ghost use Rattle.c_macros.specs.Waiting.{backwards};
ghost use Rattle.c_macros.specs.declared.item.Item.{Item};
ghost use Rattle.c_macros.specs.declared.purpose.Purpose.TheVariants.{Called};

use crate::item::Item;
use crate::run::Run;
use crate::table::MacroTable;
use c_tokens::Names;
use sparse_model::TokenKind;

/// A name that isn't an entry of the table, and has another value at each place (C11 6.10.8.1).
#[derive(Clone, Copy, PartialEq, Eq)]
pub(crate) enum Predefined {
    FileName,
    LineNumber,
    CounterNumber,
}

/// What a token is for.
#[derive(Clone, Copy, PartialEq, Eq)]
pub(crate) enum Purpose {
    /// It is put as it is.
    Stays,
    /// It names an object-like macro.
    Replaced,
    /// It names a function-like macro, and a `(` follows.
    Called,
    Predefines(Predefined),
}

impl Run {
    /// What a token is for that was taken from the top.
    pub(crate) fn purpose(&self, table: &MacroTable, names: &Names, item: &Item) -> Purpose
        requires name { HasName names.now item.now }
        requires set { HasSet self.now.sets item.now }
        ensures purpose { (r : Reading) → Reads names.now self.now.sets r → (below now : List Item) → self.now.work.items ≡ below ++ backwards now → self.now.floor ≡ length below → Purposed r table.now item.now now result }
        ensures above { result ≡ Called → self.now.floor < length self.now.work.items }
    {
        if !self.may_be_replaced(item) {
            return Purpose::Stays;
        }
        let Some(entry) = table.entry(item.token.name) else {
            return predefined_or_stays(names.spelling(item.token.name));
        };
        if entry.definition().params.is_none() {
            return Purpose::Replaced;
        }
        if self.opens() {
            return Purpose::Called;
        }
        Purpose::Stays
    }

    // It is a name that it doesn't hide.
    fn may_be_replaced(&self, item: &Item) -> bool
        requires set { HasSet self.now.sets item.now }
        ensures { (names : List (List ℕ)) (r : Reading) → Reads names self.now.sets r →
            result ≡ (is_identifier_kind item.now.token.kind && not (r.hidden item.now.hides (r.spelled item.now.token.name))) }
    {
        item.token.kind == TokenKind::Identifier
            && !self.sets.contains(item.hides, item.token.name.0)
    }

    // The next token is a `(`.
    fn opens(&self) -> bool
        ensures opens { (below now : List Item) → self.now.work.items ≡ below ++ backwards now → self.now.floor ≡ length below → result ≡ opens_with now }
        ensures above { IsTrue result → self.now.floor < length self.now.work.items }
    {
        let count = self.work.len();
        count > self.floor && self.work[count - 1].token.kind == TokenKind::LeftParenthesis
    }
}

// A name without an entry.
fn predefined_or_stays(name: &[u8]) -> Purpose
    ensures { result ≡ purpose_of_predefined (predefined_of name.now) }
{
    if name == b"__FILE__".as_slice() {
        return Purpose::Predefines(Predefined::FileName);
    }
    if name == b"__LINE__".as_slice() {
        return Purpose::Predefines(Predefined::LineNumber);
    }
    if name == b"__COUNTER__".as_slice() {
        return Purpose::Predefines(Predefined::CounterNumber);
    }
    Purpose::Stays
}
