// Structures and unions of C with sizes, alignments and first bits that were counted by hand, through the calls.
ghost use Rattle.std.specs.Prelude.{◌≡◌, All, IfOk, true};
ghost use Rattle.c_types.specs.Layouts.{HasMember};
ghost use Rattle.c_types.specs.Table.{IsShapeOver, IsTypeId, type_at, types_in};

use crate::{FieldBits, LayoutFault, align_of, field_bits, offset_of, size_of};
use c_types::{AggregateBody, Member, MemberList, ShapeBase, TypeShape, Types};
use sparse_model::{IntKind, NameId, Restrict, Space, TypeId};
use std::alloc::{AllocError, Global};
use std::process::Abort;
use std::test::Fail;

#[derive(Clone, Copy)]
enum Of {
    Plain(IntKind),
    Restricted(IntKind),
    PointerTo(IntKind),
    ArrayOf(IntKind, Option<u64>),
}

// What is written at a member: the alignment, and the width of a bit-field with a name or without.
#[derive(Clone, Copy)]
enum Written {
    Nothing,
    Aligned(u32),
    Field(u32),
    AlignedField(u32, u32),
    Unnamed(u32),
}

struct Row {
    text: &'static str,
    is_union: bool,
    packed: bool,
    align: u32,
    // each with its first bit
    members: &'static [(Of, Written, u64)],
    size: u64,
    alignment: u64,
}

const BOOL: Of = Of::Plain(IntKind::Bool);

const CHAR: Of = Of::Plain(IntKind::Char);

const UCHAR: Of = Of::Plain(IntKind::UChar);

const SHORT: Of = Of::Plain(IntKind::Short);

const INT: Of = Of::Plain(IntKind::Int);

const LONG: Of = Of::Plain(IntKind::Long);

const NOTHING: Written = Written::Nothing;

#[rattlefmt::skip]
static ROWS: [Row; 27] = [
    Row { text: "struct { char a; int b : 3; int c : 30; short d; }", is_union: false, packed: false, align: 1, members: &[(CHAR, NOTHING, 0), (INT, Written::Field(3), 8), (INT, Written::Field(30), 32), (SHORT, NOTHING, 64)], size: 12, alignment: 4 },
    Row { text: "struct { char a; int b; } PACKED", is_union: false, packed: true, align: 1, members: &[(CHAR, NOTHING, 0), (INT, NOTHING, 8)], size: 5, alignment: 1 },
    Row { text: "struct PACKED { char a; int b; }", is_union: false, packed: false, align: 1, members: &[(CHAR, NOTHING, 0), (INT, NOTHING, 32)], size: 8, alignment: 4 },
    Row { text: "struct { char a; int b; } PACKED ALIGNED(4)", is_union: false, packed: true, align: 4, members: &[(CHAR, NOTHING, 0), (INT, NOTHING, 8)], size: 8, alignment: 4 },
    Row { text: "struct { char a; int b ALIGNED(2); } PACKED", is_union: false, packed: true, align: 1, members: &[(CHAR, NOTHING, 0), (INT, Written::Aligned(2), 16)], size: 6, alignment: 2 },
    Row { text: "struct { char a; } ALIGNED(16)", is_union: false, packed: false, align: 16, members: &[(CHAR, NOTHING, 0)], size: 16, alignment: 16 },
    Row { text: "struct { char a; char b ALIGNED(8); }", is_union: false, packed: false, align: 1, members: &[(CHAR, NOTHING, 0), (CHAR, Written::Aligned(8), 64)], size: 16, alignment: 8 },
    Row { text: "struct { char a; int b : 3 ALIGNED(8); }", is_union: false, packed: false, align: 1, members: &[(CHAR, NOTHING, 0), (INT, Written::AlignedField(3, 8), 64)], size: 16, alignment: 8 },
    Row { text: "struct { char a ALIGNED(4), b; }", is_union: false, packed: false, align: 1, members: &[(CHAR, Written::Aligned(4), 0), (CHAR, NOTHING, 8)], size: 4, alignment: 4 },
    Row { text: "struct { char ALIGNED(4) a, b; }", is_union: false, packed: false, align: 1, members: &[(CHAR, Written::Aligned(4), 0), (CHAR, Written::Aligned(4), 32)], size: 8, alignment: 4 },
    Row { text: "struct { int a : 3; int : 0; int b : 3; }", is_union: false, packed: false, align: 1, members: &[(INT, Written::Field(3), 0), (INT, Written::Unnamed(0), 32), (INT, Written::Field(3), 32)], size: 8, alignment: 4 },
    Row { text: "struct { char a; int : 0; char b; }", is_union: false, packed: false, align: 1, members: &[(CHAR, NOTHING, 0), (INT, Written::Unnamed(0), 32), (CHAR, NOTHING, 32)], size: 5, alignment: 1 },
    Row { text: "struct { char a; int : 5; char b; }", is_union: false, packed: false, align: 1, members: &[(CHAR, NOTHING, 0), (INT, Written::Unnamed(5), 8), (CHAR, NOTHING, 16)], size: 3, alignment: 1 },
    Row { text: "struct { char a; long b : 40; int c : 30; }", is_union: false, packed: false, align: 1, members: &[(CHAR, NOTHING, 0), (LONG, Written::Field(40), 8), (INT, Written::Field(30), 64)], size: 16, alignment: 8 },
    Row { text: "struct { char a; int b : 12; int c : 14; int d : 10; } PACKED", is_union: false, packed: true, align: 1, members: &[(CHAR, NOTHING, 0), (INT, Written::Field(12), 8), (INT, Written::Field(14), 32), (INT, Written::Field(10), 46)], size: 7, alignment: 1 },
    Row { text: "struct { unsigned char a : 4; unsigned char b : 5; }", is_union: false, packed: false, align: 1, members: &[(UCHAR, Written::Field(4), 0), (UCHAR, Written::Field(5), 8)], size: 2, alignment: 1 },
    Row { text: "struct { int a : 31; int b : 2; char c; }", is_union: false, packed: false, align: 1, members: &[(INT, Written::Field(31), 0), (INT, Written::Field(2), 32), (CHAR, NOTHING, 40)], size: 8, alignment: 4 },
    Row { text: "struct { short a : 9; short b : 9; int d : 1; }", is_union: false, packed: false, align: 1, members: &[(SHORT, Written::Field(9), 0), (SHORT, Written::Field(9), 16), (INT, Written::Field(1), 25)], size: 4, alignment: 4 },
    Row { text: "struct { _Bool a : 1; _Bool b : 1; int c; }", is_union: false, packed: false, align: 1, members: &[(BOOL, Written::Field(1), 0), (BOOL, Written::Field(1), 1), (INT, NOTHING, 32)], size: 8, alignment: 4 },
    Row { text: "struct { long a : 1; char b; }", is_union: false, packed: false, align: 1, members: &[(LONG, Written::Field(1), 0), (CHAR, NOTHING, 8)], size: 8, alignment: 8 },
    Row { text: "union { char a; long b; int c : 5; }", is_union: true, packed: false, align: 1, members: &[(CHAR, NOTHING, 0), (LONG, NOTHING, 0), (INT, Written::Field(5), 0)], size: 8, alignment: 8 },
    Row { text: "union { int : 5; char a; }", is_union: true, packed: false, align: 1, members: &[(INT, Written::Unnamed(5), 0), (CHAR, NOTHING, 0)], size: 1, alignment: 1 },
    Row { text: "struct { int n; long a[]; }", is_union: false, packed: false, align: 1, members: &[(INT, NOTHING, 0), (Of::ArrayOf(IntKind::Long, None), NOTHING, 64)], size: 8, alignment: 8 },
    Row { text: "struct { char a[3]; short b; }", is_union: false, packed: false, align: 1, members: &[(Of::ArrayOf(IntKind::Char, Some(3)), NOTHING, 0), (SHORT, NOTHING, 32)], size: 6, alignment: 2 },
    Row { text: "struct { le16 a; le32 b; int *p; }", is_union: false, packed: false, align: 1, members: &[(Of::Restricted(IntKind::UShort), NOTHING, 0), (Of::Restricted(IntKind::UInt), NOTHING, 32), (Of::PointerTo(IntKind::Int), NOTHING, 64)], size: 16, alignment: 8 },
    Row { text: "struct { char a[1099511627775]; char b; }", is_union: false, packed: false, align: 1, members: &[(Of::ArrayOf(IntKind::Char, Some(1099511627775)), NOTHING, 0), (CHAR, NOTHING, 8796093022200)], size: 1099511627776, alignment: 1 },
    Row { text: "struct { }", is_union: false, packed: false, align: 0, members: &[], size: 0, alignment: 1 },
];

impl Written {
    fn width(self) -> Option<u32> {
        match self {
            Written::Field(width) => Some(width),
            Written::AlignedField(width, _) => Some(width),
            Written::Unnamed(width) => Some(width),
            _ => None,
        }
    }

    fn align(self) -> u32 {
        match self {
            Written::Aligned(align) => align,
            Written::AlignedField(_, align) => align,
            _ => 1,
        }
    }

    fn name(self) -> Option<NameId> {
        match self {
            Written::Unnamed(_) => None,
            _ => Some(NameId(0)),
        }
    }
}

fn make(types: &mut Types, base: ShapeBase) -> Result<TypeId, AllocError>
    requires { IsShapeOver (types_in types.old) base }
    ensures known { IfOk result (IsTypeId types.new) }
{
    types.make(TypeShape {
        base,
        is_const: false,
        is_volatile: false,
        noderef: false,
        space: Space::None,
    })
}

fn make_of(types: &mut Types, of: Of) -> Result<TypeId, AllocError> {
    match of {
        Of::Plain(kind) => make(types, ShapeBase::Integer(kind, None)),
        Of::Restricted(kind) => make(types, ShapeBase::Integer(kind, Some(Restrict(1)))),
        Of::PointerTo(kind) => {
            let target = make(types, ShapeBase::Integer(kind, None))?;
            make(types, ShapeBase::Pointer(target))
        }
        Of::ArrayOf(kind, count) => {
            let element = make(types, ShapeBase::Integer(kind, None))?;
            make(types, ShapeBase::Array(element, count))
        }
    }
}

// The members of a row with these types, which are all of the table.
fn members_of(
    rt: &impl Abort,
    alloc: Global,
    types: &Types,
    row: &Row,
    ids: &[TypeId],
) -> Result<MemberList, AllocError>
    ensures { IfOk result (λ members. All (λ member. IsTypeId types.now member.of) members) }
{
    let mut members = Vec::new(alloc);
    'members: for (&of, &(_, written, _)) in ids.iter().zip(row.members) {
        assert!(rt; types.knows(of));
        members.push(Member {
            name: written.name(),
            of,
            width: written.width(),
            align: written.align(),
        })?;
    }
    Ok(MemberList::from_vec(members))
}

// Tells the aggregate of a row.
fn tell(
    rt: &impl Abort,
    alloc: Global,
    types: &mut Types,
    aggregate: u32,
    row: &Row,
) -> Result<(), AllocError> {
    let mut ids = Vec::new(alloc);
    for &(of, _, _) in row.members {
        let id = make_of(types, of)?;
        ids.push(id)?;
    }
    let members = members_of(rt, alloc, types, row, &ids)?;
    assert!(rt; types.body(aggregate).is_none());
    types.complete(
        aggregate,
        AggregateBody {
            members,
            packed: row.packed,
            align: row.align,
        },
    )
}

// Whether a type has this size and this alignment.
fn takes(types: &Types, t: TypeId, size: u64, alignment: u64) -> bool
    requires { IsTypeId types.now t }
{
    size_of(types, t) == Ok(size) && align_of(types, t) == Ok(alignment)
}

// Whether a type has neither for this reason.
fn refuses(types: &Types, t: TypeId, fault: LayoutFault) -> bool
    requires { IsTypeId types.now t }
{
    size_of(types, t) == Err(fault) && align_of(types, t) == Err(fault)
}

// Whether the calls may be asked for a member.
fn has_member(types: &Types, aggregate: TypeId, member: u32) -> bool
    requires { IsTypeId types.now aggregate }
    ensures { result ≡ true → HasMember types.now (type_at types.now aggregate) member }
{
    let Some((number, _)) = types.outline(aggregate).aggregate() else {
        return true;
    };
    match types.body(number) {
        Some(body) => (member as usize) < body.members.len(),
        None => true,
    }
}

// Whether a member begins with this bit, and has these bits if it is a bit-field.
fn begins(types: &Types, t: TypeId, member: u32, bit: u64, width: Option<u32>) -> bool
    requires { IsTypeId types.now t }
{
    if !has_member(types, t, member) {
        return false;
    }
    let bits = match width {
        Some(width) => Some(FieldBits { start: bit, width }),
        None => None,
    };
    offset_of(types, t, member) == Ok(bit / 8) && field_bits(types, t, member) == bits
}

// Whether all members of a row begin where it says.
fn all_begin(types: &Types, t: TypeId, row: &Row) -> bool
    requires { IsTypeId types.now t }
{
    for (member, &(_, written, bit)) in (0..u32::MAX).zip(row.members) {
        if !begins(types, t, member, bit, written.width()) {
            return false;
        }
    }
    true
}

// Tells the aggregate of a row, and looks at it.
fn check(
    rt: &impl Abort,
    alloc: Global,
    types: &mut Types,
    aggregate: u32,
    row: &Row,
) -> Result<(), AllocError> {
    let t = make(types, ShapeBase::Aggregate(aggregate, row.is_union))?;
    assert!(rt; refuses(types, t, LayoutFault::Incomplete), "{}", row.text);
    tell(rt, alloc, types, aggregate, row)?;
    assert!(rt; types.knows(t));
    assert!(rt; takes(types, t, row.size, row.alignment), "{}", row.text);
    assert!(rt; all_begin(types, t, row), "{}", row.text);
    Ok(())
}

// All of a table, each with the number of its row.
fn check_all(
    rt: &impl Abort,
    alloc: Global,
    types: &mut Types,
    rows: &[Row],
) -> Result<(), AllocError> {
    for (aggregate, row) in (0..u32::MAX).zip(rows) {
        check(rt, alloc, types, aggregate, row)?;
    }
    Ok(())
}

#[test]
fn aggregates_are_laid_out_as_counted(rt: HostRuntime) -> Result<(), Fail> {
    let mut types = Types::new(rt.alloc())?;
    check_all(&rt, rt.alloc(), &mut types, &ROWS)?;
    Ok(())
}
