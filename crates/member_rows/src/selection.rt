// What a name names in an aggregate of a type (C11 6.5.2.3 p1).
ghost use Rattle.std.specs.Prelude.{◌≡◌, Some, false};
ghost use Rattle.meaning_typing.specs.Members as meaning;
ghost use Rattle.meaning_typing.specs.Operators.{is_incomplete};
ghost use Rattle.c_types.specs.Layouts.{told_in};
ghost use Rattle.c_types.specs.Outlines.{aggregate_in, outline_of};
ghost use Rattle.c_types.specs.Table.{IsTypeId, type_at};
ghost use Rattle.meaning_layout.specs.Sizes.{extent_of};
ghost use Rattle.member_rows.specs.Aggregates.{aggregates_in, selection_in};
ghost use Rattle.member_rows.specs.Selections.{IsKnownSelection, selection_seen};
ghost use Rattle.node_facts.specs.Facts.{name_seen};

use crate::marks::PlaceMarks;
use c_types::{FoundMember, Types};
use expression_rows::is_incomplete;
use sparse_model::{NameId, TypeId};

/// What a name names in an aggregate of a type.
#[derive(Clone, Copy, Debug, PartialEq, Eq)]
pub enum Selection {
    /// The type is no structure and no union.
    NotAggregate,
    /// Its members weren't told.
    NotComplete,
    /// In a place with these marks, if there is such a member.
    Selected(PlaceMarks, Option<FoundMember>),
}

// In a complete aggregate.
fn selected(types: &Types, number: u32, is_union: bool, name: NameId, of: TypeId) -> Selection
    requires known { IsTypeId types.now of }
    requires aggregate { aggregate_in (outline_of (type_at types.now of)) ≡ Some (number, is_union) }
    requires complete { is_incomplete (extent_of (told_in types.now) (type_at types.now of)) ≡ false }
    ensures selection { selection_seen types.now result ≡ selection_in types.now name (type_at types.now of) }
    ensures known { IsKnownSelection types.now result }
{
    let shape = types.shape(of);
    Selection::Selected(PlaceMarks::of(shape), types.member(number, name))
}

// By the layouts and names of the table.
fn selection_in(types: &Types, name: NameId, of: TypeId) -> Selection
    requires { IsTypeId types.now of }
    ensures selection { selection_seen types.now result ≡ selection_in types.now name (type_at types.now of) }
    ensures known { IsKnownSelection types.now result }
{
    let Some((number, is_union)) = types.outline(of).aggregate() else {
        return Selection::NotAggregate;
    };
    if is_incomplete(types.extent(of)) {
        return Selection::NotComplete;
    }
    selected(types, number, is_union, name, of)
}

/// What a name names in an aggregate of this type, if that is a complete one. It takes no memory, and a few steps.
#[tactic(auto, using(crate::proofs::AggregateLemmas::selection_told))]
pub fn selection_of(types: &Types, name: NameId, of: TypeId) -> Selection
    requires { IsTypeId types.now of }
    ensures selection { selection_seen types.now result ≡ meaning.selection_of (aggregates_in types.now) (name_seen name) (type_at types.now of) }
    ensures known { IsKnownSelection types.now result }
{
    selection_in(types, name, of)
}
