// The layout of a body, made once from what its members' types take.
ghost use Rattle.std.specs.Prelude.{◌≡◌, ◌<◌, ◌^◌, All, IfOk, IfSome, false, true, length, map, option_map};
ghost use Rattle.meaning_layout.specs.Layouts.{layout_of};
ghost use Rattle.meaning_layout.specs.Sizes.{member_extent};
ghost use Rattle.meaning_layout.specs.Telling.{effective, field_width, layout_told, placed_member, placed_members};
ghost use Rattle.body_layout.specs.Seen.{IsPlaced, structure_body, union_body};
ghost use Rattle.c_types.specs.Layouts.{AreNarrow, IsNarrowLayout, body_seen, extent_seen, layout_kept, members_placed, member_told, one_placed, open_element_of, told_kept};
ghost use Rattle.c_types.specs.Rows.{AreRows, type_numbered, types_of};
ghost use Rattle.c_types.specs.Table.{IsBodyOver};

use crate::bodies::{AggregateBody, Member};
use crate::layouts::{AggregateLayout, LayoutFault, Layouts};
use crate::rows::Rows;
use body_layout::{Extent, PlacedMember, structure_layout, union_extent};
use std::alloc::{AllocError, Global};

impl Layouts {
    /// The layout of a body whose members have these types.
    pub fn lay_out(
        &self,
        alloc: Global,
        rows: &Rows,
        body: &AggregateBody,
    ) -> Result<AggregateLayout, AllocError>
        requires rows { AreRows rows.now.rows.entries }
        requires narrow { AreNarrow (told_kept self.now.kept.entries) }
        requires known { IsBodyOver (types_of rows.now.rows.entries) body.now }
        ensures structure { IfOk result (λ made. layout_kept made false ≡ layout_told (told_kept self.now.kept.entries) (body_seen (types_of rows.now.rows.entries) body.now) false) }
        ensures union { IfOk result (λ made. layout_kept made true ≡ layout_told (told_kept self.now.kept.entries) (body_seen (types_of rows.now.rows.entries) body.now) true) }
        ensures narrow { IfOk result IsNarrowLayout }
    {
        let placed = self.place(alloc, rows, body.members.as_slice())?;
        match placed {
            Ok(members) => {
                let written = effective(body.align);
                let made = lay_out_members(alloc, body.packed, written, &members)?;
                Ok(made)
            }
            Err(fault) => Ok(AggregateLayout {
                structure: Err(fault),
                union: Err(fault),
                count: 0,
            }),
        }
    }

    // What members take, or the first reason that one has no size.
    fn place(
        &self,
        alloc: Global,
        rows: &Rows,
        members: &[Member],
    ) -> Result<Result<Vec<PlacedMember>, LayoutFault>, AllocError>
        requires rows { AreRows rows.now.rows.entries }
        requires narrow { AreNarrow (told_kept self.now.kept.entries) }
        requires known { All (λ member. member.of.0 < length (types_of rows.now.rows.entries)) members.now }
        ensures members { IfOk result (λ made. members_placed made ≡ placed_members (told_kept self.now.kept.entries) (map (member_told (types_of rows.now.rows.entries)) members.now)) }
        ensures placed { IfOk result (λ made. IfOk made (λ placed. All IsPlaced placed.items)) }
    {
        let mut placed = Vec::new(alloc);
        let mut rest = members;
        'members: while let Some((member, others)) = rest.split_first() {
            match self.place_one(rows, *member) {
                Ok(one) => placed.push(one)?,
                Err(fault) => return Ok(Err(fault)),
            }
            rest = others;
        }
        Ok(Ok(placed))
    }

    // What a member takes.
    fn place_one(&self, rows: &Rows, member: Member) -> Result<PlacedMember, LayoutFault>
        requires rows { AreRows rows.now.rows.entries }
        requires narrow { AreNarrow (told_kept self.now.kept.entries) }
        requires known { member.of.0 < length (types_of rows.now.rows.entries) }
        ensures member { one_placed result ≡ placed_member (told_kept self.now.kept.entries) (member_told (types_of rows.now.rows.entries) member) }
        ensures placed { IfOk result IsPlaced }
    {
        let width = rows.field_width(member.of.0, member.width);
        let written = effective(member.align);
        match self.member_extent(rows, member.of.0) {
            Ok(extent) => Ok(PlacedMember {
                size: extent.size,
                align: extent.align,
                width,
                named: member.name.is_some() || member.width.is_none(),
                written,
            }),
            Err(fault) => Err(fault),
        }
    }

    // What the type of a member takes; an array without a length takes nothing.
    fn member_extent(&self, rows: &Rows, number: u32) -> Result<Extent, LayoutFault>
        requires rows { AreRows rows.now.rows.entries }
        requires known { number < length (types_of rows.now.rows.entries) }
        ensures { extent_seen result ≡ member_extent (told_kept self.now.kept.entries) (type_numbered (types_of rows.now.rows.entries) number) }
    {
        let Some(element) = rows.open_element(number) else {
            return self.extent(rows.elements(number));
        };
        match self.extent(rows.elements(element)) {
            Ok(one) => Ok(Extent {
                size: 0,
                align: one.align,
            }),
            Err(fault) => Err(fault),
        }
    }
}

impl Rows {
    /// How many bits a bit-field of a type has.
    pub fn field_width(&self, number: u32, width: Option<u32>) -> Option<u32>
        requires rows { AreRows self.now.rows.entries }
        requires known { number < length (types_of self.now.rows.entries) }
        ensures { result ≡ field_width (type_numbered (types_of self.now.rows.entries) number) width }
    {
        match self.kind(number) {
            Some(_) => width,
            None => None,
        }
    }

    // The element of an array whose length isn't known.
    fn open_element(&self, number: u32) -> Option<u32>
        requires rows { AreRows self.now.rows.entries }
        requires known { number < length (types_of self.now.rows.entries) }
        ensures element { option_map (type_numbered (types_of self.now.rows.entries)) result ≡ open_element_of (type_numbered (types_of self.now.rows.entries) number) }
        ensures known { IfSome result (λ element. element < length (types_of self.now.rows.entries)) }
    {
        self.row(number).0.form.open_element()
    }
}

// A written alignment, where 0 has no effect (C11 6.7.5 p6).
fn effective(written: u32) -> u32
    ensures effective { result ≡ effective written }
    ensures some { 0 < result }
    ensures narrow { result < 2 ^ 32 }
{
    written.max(1)
}

// The layout of members, as those of a structure and of a union.
fn lay_out_members(
    alloc: Global,
    packed: bool,
    written: u32,
    members: &[PlacedMember],
) -> Result<AggregateLayout, AllocError>
    requires members { All IsPlaced members.now }
    requires written { 0 < written }
    requires narrow { written < 2 ^ 32 }
    ensures structure { IfOk result (λ made. layout_kept made false ≡ layout_of (structure_body packed written members.now)) }
    ensures union { IfOk result (λ made. layout_kept made true ≡ layout_of (union_body packed written members.now)) }
    ensures narrow { IfOk result IsNarrowLayout }
{
    let structure = structure_layout(alloc, packed, written, members)?;
    Ok(AggregateLayout {
        structure: structure.ok_or(LayoutFault::TooLarge),
        union: union_extent(packed, written, members).ok_or(LayoutFault::TooLarge),
        count: members.len(),
    })
}
