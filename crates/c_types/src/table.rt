// The table of types as its callers see it.
ghost use Rattle.std.specs.Prelude.{◌≡◌, ◌<◌, ◌↔◌, IsTrue, is_some, ◌∷◌, ◌++◌, [], None, Some, IfNone, IfOk, IfSome, IsSome, OnOk, OnErr, length, map, option_map, slice_get};
ghost use Rattle.meaning_types.specs.Types.{NoTypes, flags_of, has_flag, without_flags};
ghost use Rattle.meaning_types.specs.Equality.{are_equal_flags, are_same};
ghost use Rattle.meaning_types.specs.Composite.{composite};
ghost use Rattle.meaning_operands.specs.Operands.{identity_of};
ghost use Rattle.meaning_layout.specs.Members.{member_bits, tell_names};
ghost use Rattle.meaning_layout.specs.Sizes.{extent_of, told_extent};
ghost use Rattle.meaning_layout.specs.Telling.{layout_told, or_incomplete, tell};
ghost use Rattle.c_types.specs.Layouts.{bit_in, bit_seen, body_seen, extent_seen, told_in};
ghost use Rattle.c_types.specs.Levels.{BeginsWith};
ghost use Rattle.c_types.specs.Members.{found_seen, member_declared, member_in, names_in};
ghost use Rattle.c_types.specs.Operands.{identity_seen};
ghost use Rattle.c_types.specs.Outlines.{outline_of};
ghost use Rattle.c_types.specs.Rows.{flags_in, parameter_types, qualifiers_in, space_seen};
ghost use Rattle.c_types.specs.Table.{flags_of_shape, qualifiers_of_shape, space_of};
ghost use Rattle.c_types.specs.Trees.{tree_seen};

use crate::bodies::{AggregateBody, Named};
use crate::form::{MarkWords, Marks, SpaceKey};
use crate::kinds::{kind_number, promoted_kind, usual_kind};
use crate::layouts::{LayoutFault, Layouts};
use crate::making::Maker;
use crate::maps::MemberMaps;
use crate::members::FoundMember;
use crate::outline::Outline;
use crate::rows::Rows;
use crate::shapes::{OuterShape, TypeShape};
use body_layout::Extent;
use indexmap::IndexMap;
use sparse_model::{CType, IntKind, NameId, Restrict, Space, TypeId};
use std::alloc::{AllocError, Global};
use std::marker::Model;

/// The types of a unit. Its value is the table of them: a row a type, by their numbers, the bodies of
/// aggregates, and the names of tags and identities.
#[derive(Drop)]
pub struct Types {
    maker: Maker,
    bodies: IndexMap<u32, AggregateBody>,
    layouts: Layouts,
    members: MemberMaps,
    names: IndexMap<Named, NameId>,
}

impl Model for Types {
    ghost use Rattle.c_types.specs.Kept.{IsKept};
    ghost use Rattle.c_types.specs.Table.{TypeTable};

    ghost Value = { TypeTable };

    ghost view = { λ types. record { rows = types.maker.rows.rows.entries; bodies = types.bodies.entries; names = types.names.entries } };

    ghost invariant = { λ types. IsKept types.maker.rows.rows.entries types.maker.markings.entries types.bodies.entries types.layouts.kept.entries types.members.chains.items types.members.kept.entries };
}

impl Types {
    ghost use Rattle.c_types.specs.Table.{Extends, IsBodyOver, IsOuterOver, IsShapeOver, IsTypeId, TellsNoMore, body_in, count_in, count_of, integer_kind, name_in, nth_type, plain_integers, pointed_at, promoted_type, type_at, plain_integer, type_of_outer, type_of_shape, types_in, usual_type, with_name};

    /// A table of the integer types of all kinds, each without qualifiers and flags.
    pub fn new(alloc: Global) -> Result<Types, AllocError>
        ensures types { IfOk result (λ table. types_in table ≡ plain_integers) }
        ensures bodies { IfOk result (λ table. table.bodies ≡ []) }
        ensures names { IfOk result (λ table. table.names ≡ []) }
    {
        Ok(Types {
            maker: Maker::new(alloc, Rows::of_integers(alloc)?),
            bodies: IndexMap::new(alloc),
            layouts: Layouts::new(alloc),
            members: MemberMaps::new(alloc),
            names: IndexMap::new(alloc),
        })
    }

    /// Whether an id is that of a type of this table. It takes no memory.
    pub fn knows(&self, t: TypeId) -> bool
        ensures { IsTrue result ↔ IsTypeId self.now t }
    {
        self.maker.rows.has(t.0)
    }

    /// The type of this shape, which joins the table if it is new.
    pub fn make(&mut self, shape: TypeShape) -> Result<TypeId, AllocError>
        requires { IsShapeOver (types_in self.old) shape.base }
        ensures stands { IfOk result (λ id. slice_get (types_in self.new) id.0 ≡ Some (type_of_shape self.old shape)) }
        ensures keeps { OnOk result (Extends self.old self.new) }
        ensures tells { OnOk result (TellsNoMore self.old self.new) }
        ensures layouts { OnOk result (told_in self.new ≡ told_in self.old) }
        ensures members { OnOk result (names_in self.new ≡ names_in self.old) }
        ensures err { OnErr result (self.new ≡ self.old) }
    {
        let marks = marks_of(&shape);
        let TypeShape { base, .. } = shape;
        let number = self.maker.make_base(base, marks)?;
        Ok(TypeId(number))
    }

    /// Whether two types are equal but for const and volatile at every level. It takes no memory.
    pub fn same(&self, a: TypeId, b: TypeId) -> bool
        requires first { IsTypeId self.now a }
        requires second { IsTypeId self.now b }
        ensures { result ≡ are_same (type_at self.now a) (type_at self.now b) }
    {
        self.maker.rows.same(a.0, b.0)
    }

    /// Whether two types are equal. It takes no memory, and one step.
    pub fn equal(&self, a: TypeId, b: TypeId) -> bool
        requires first { IsTypeId self.now a }
        requires second { IsTypeId self.now b }
        ensures { IsTrue result ↔ (type_at self.now a ≡ type_at self.now b) }
    {
        self.maker.rows.equal(a.0, b.0)
    }

    /// The type to which a pointer points. It takes no memory.
    pub fn target(&self, t: TypeId) -> Option<TypeId>
        requires { IsTypeId self.now t }
        ensures target { option_map (type_at self.now) result ≡ pointed_at (type_at self.now t) }
        ensures known { IfSome result (IsTypeId self.now) }
    {
        match self.maker.rows.target(t.0) {
            Some(target) => Some(TypeId(target)),
            None => None,
        }
    }

    /// The outermost level of a type. It takes no memory, and a step for each parameter of a function.
    pub fn shape(&self, t: TypeId) -> OuterShape
        requires { IsTypeId self.now t }
        ensures shape { type_of_outer (types_in self.now) (parameter_types (type_at self.now t)) result ≡ type_at self.now t }
        ensures count { count_in result.base ≡ count_of (parameter_types (type_at self.now t)) }
        ensures known { IsOuterOver (types_in self.now) result.base }
    {
        self.maker.rows.outer_shape(t.0)
    }

    /// The type of a function's parameter, of which there are more than `i`. It takes no memory, and a step
    /// for each parameter before it.
    pub fn parameter(&self, t: TypeId, i: u32) -> TypeId
        requires known { IsTypeId self.now t }
        requires within { i < count_of (parameter_types (type_at self.now t)) }
        ensures parameter { nth_type (parameter_types (type_at self.now t)) i ≡ Some (type_at self.now result) }
        ensures known { IsTypeId self.now result }
    {
        TypeId(self.maker.rows.parameter(t.0, i))
    }

    /// The first parameter of a function type, and the function without it; none where a function has no
    /// parameters, and of another type. It takes no memory.
    pub fn first_parameter(&self, t: TypeId) -> Option<(TypeId, TypeId)>
        requires { IsTypeId self.now t }
        ensures some { IfSome result (λ parts. BeginsWith (types_in self.now) t.0 parts.0.0 parts.1.0) }
        ensures none { IfNone result (parameter_types (type_at self.now t) ≡ NoTypes) }
    {
        match self.maker.rows.first_parameter(t.0) {
            Some((first, rest)) => Some((TypeId(first), TypeId(rest))),
            None => None,
        }
    }

    /// Whether a type is one of integers, restricted or not. It takes no memory.
    pub fn is_integer(&self, t: TypeId) -> bool
        requires { IsTypeId self.now t }
        ensures { result ≡ is_some (integer_kind (type_at self.now t)) }
    {
        self.maker.rows.kind(t.0).is_some()
    }

    /// What a type is, apart from the types in it. It takes no memory, and one step.
    pub fn outline(&self, t: TypeId) -> Outline
        requires { IsTypeId self.now t }
        ensures { result ≡ outline_of (type_at self.now t) }
    {
        self.maker.rows.outline(t.0)
    }

    /// The identity of a restricted integer type. It takes no memory, and one step.
    #[tactic(auto, using(crate::proofs::OutlineLemmas::identity_told))]
    pub fn identity(&self, t: TypeId) -> Option<Restrict>
        requires { IsTypeId self.now t }
        ensures { identity_seen result ≡ identity_of (type_at self.now t) }
    {
        self.outline(t).identity()
    }

    /// Whether the outermost level of a type has a flag. It takes no memory, and one step.
    pub fn has_flag(&self, t: TypeId) -> bool
        requires { IsTypeId self.now t }
        ensures { result ≡ has_flag (flags_of (type_at self.now t)) }
    {
        self.maker.rows.has_flag(t.0)
    }

    /// Whether the outermost levels of two types have the same flags. It takes no memory, and one step.
    pub fn same_flags(&self, a: TypeId, b: TypeId) -> bool
        requires first { IsTypeId self.now a }
        requires second { IsTypeId self.now b }
        ensures { result ≡ are_equal_flags (flags_of (type_at self.now a)) (flags_of (type_at self.now b)) }
    {
        self.maker.rows.same_flags(a.0, b.0)
    }

    /// Whether two types are equal but for const, volatile and flags at every level. It takes no memory,
    /// and one step.
    pub fn same_without_flags(&self, a: TypeId, b: TypeId) -> bool
        requires first { IsTypeId self.now a }
        requires second { IsTypeId self.now b }
        ensures { result ≡ are_same (without_flags (type_at self.now a)) (without_flags (type_at self.now b)) }
    {
        self.maker.rows.same_without_flags(a.0, b.0)
    }

    /// What an integer type is promoted to (C11 6.3.1.1 p2); a restricted one counts as its base. It takes
    /// no memory.
    pub fn promote(&self, t: TypeId) -> TypeId
        requires known { IsTypeId self.now t }
        requires integer { IsSome (integer_kind (type_at self.now t)) }
        ensures promoted { Some (type_at self.now result) ≡ promoted_type (integer_kind (type_at self.now t)) }
        ensures known { IsTypeId self.now result }
    {
        let kind = self.maker.rows.kind(t.0).unwrap();
        self.plain(promoted_kind(kind))
    }

    /// What two integer types become together (C11 6.3.1.8); a restricted one counts as its base. It takes
    /// no memory.
    pub fn usual(&self, a: TypeId, b: TypeId) -> TypeId
        requires first { IsTypeId self.now a }
        requires second { IsTypeId self.now b }
        requires first_integer { IsSome (integer_kind (type_at self.now a)) }
        requires second_integer { IsSome (integer_kind (type_at self.now b)) }
        ensures usual { Some (type_at self.now result) ≡ usual_type (integer_kind (type_at self.now a)) (integer_kind (type_at self.now b)) }
        ensures known { IsTypeId self.now result }
    {
        let kind = self.maker.rows.kind(a.0).unwrap();
        let other = self.maker.rows.kind(b.0).unwrap();
        self.plain(usual_kind(kind, other))
    }

    // The integer type of a kind, without qualifiers and flags.
    fn plain(&self, kind: IntKind) -> TypeId
        ensures plain { type_at self.now result ≡ plain_integer kind }
        ensures known { IsTypeId self.now result }
    {
        let _maker = &self.maker;
        TypeId(kind_number(kind))
    }

    /// The one type of two declarations, if there is one (C11 6.2.7 p3): of types that are the same the
    /// first, and of two arrays of the same element, one without a length, the first with that length.
    pub fn composite(&mut self, a: TypeId, b: TypeId) -> Result<Option<TypeId>, AllocError>
        requires first { IsTypeId self.old a }
        requires second { IsTypeId self.old b }
        ensures composite { IfOk result (λ found. option_map (type_at self.new) found ≡ composite (type_at self.old a) (type_at self.old b)) }
        ensures known { IfOk result (λ found. IfSome found (IsTypeId self.new)) }
        ensures keeps { OnOk result (Extends self.old self.new) }
        ensures tells { OnOk result (TellsNoMore self.old self.new) }
        ensures layouts { OnOk result (told_in self.new ≡ told_in self.old) }
        ensures members { OnOk result (names_in self.new ≡ names_in self.old) }
        ensures err { OnErr result (self.new ≡ self.old) }
    {
        match self.maker.rows.make_composite(a.0, b.0)? {
            Some(number) => Ok(Some(TypeId(number))),
            None => Ok(None),
        }
    }

    /// The whole type as a tree. It takes a step for each part of the tree, which may have far more of them
    /// than the table has types. A tree of more than 10,000 levels is want of memory, since whoever drops it
    /// goes down to its last level.
    pub fn tree(&self, alloc: Global, t: TypeId) -> Result<CType, AllocError>
        requires { IsTypeId self.now t }
        ensures { IfOk result (λ tree. tree_seen tree ≡ type_at self.now t) }
    {
        self.maker.rows.tree(alloc, t.0)
    }

    /// Tells the members of an aggregate, which weren't told before, makes its layout, and enters their names. It takes a step for
    /// each member, and for each name of its anonymous members but those of the one that has the most of them: these names are
    /// copied, each in as many steps more as the logarithm of how many anonymous structures stand around it there.
    pub fn complete(&mut self, aggregate: u32, body: AggregateBody) -> Result<(), AllocError>
        requires untold { body_in self.old aggregate ≡ None }
        requires known { IsBodyOver (types_in self.old) body }
        ensures told { OnOk result (self.new ≡ record { rows = self.old.rows; bodies = self.old.bodies ++ (aggregate, body) ∷ []; names = self.old.names }) }
        ensures layouts { OnOk result (told_in self.new ≡ tell (told_in self.old) aggregate (body_seen (types_in self.old) body)) }
        ensures members { OnOk result (names_in self.new ≡ tell_names (told_in self.old) (names_in self.old) aggregate (map (member_declared (types_in self.old)) body.members)) }
        ensures err { OnErr result (self.new ≡ self.old) }
    {
        let layout = self
            .layouts
            .lay_out(self.maker.alloc, &self.maker.rows, &body)?;
        self.layouts.reserve()?;
        self.members.reserve()?;
        self.bodies.reserve(1)?;
        let standing = self.members.enter(
            self.maker.alloc,
            &self.maker.rows,
            &self.layouts,
            body.members.as_slice(),
        )?;
        self.bodies.insert(aggregate, body).unwrap();
        self.layouts.keep(aggregate, layout);
        self.members.keep(aggregate, standing);
        Ok(())
    }

    /// The size and the alignment of a structure or a union that would have this body, or why it has none. The body isn't told. It
    /// takes a step for each member.
    pub fn body_extent(
        &self,
        body: &AggregateBody,
        is_union: bool,
    ) -> Result<Result<Extent, LayoutFault>, AllocError>
        requires { IsBodyOver (types_in self.now) body.now }
        ensures { IfOk result (λ extent. extent_seen extent ≡ told_extent (Some (layout_told (told_in self.now) (body_seen (types_in self.now) body.now) is_union))) }
    {
        let layout = self
            .layouts
            .lay_out(self.maker.alloc, &self.maker.rows, body)?;
        Ok(layout.extent(is_union))
    }

    /// The members of an aggregate, once they were told. It takes no memory.
    pub fn body(&self, aggregate: u32) -> Option<&AggregateBody>
        ensures told { option_map (λ body. body.now) result ≡ body_in self.now aggregate }
        ensures known { IfSome result (λ body. IsBodyOver (types_in self.now) body.now) }
    {
        self.bodies.get(&aggregate)
    }

    /// The size and the alignment of a type, or why it has none. It takes no memory, and one step.
    pub fn extent(&self, t: TypeId) -> Result<Extent, LayoutFault>
        requires { IsTypeId self.now t }
        ensures { extent_seen result ≡ extent_of (told_in self.now) (type_at self.now t) }
    {
        self.layouts.extent(self.maker.rows.elements(t.0))
    }

    /// The first bit of a member of an aggregate, or why the aggregate has no layout. It takes no memory,
    /// and one step.
    pub fn first_bit(&self, aggregate: u32, is_union: bool, member: u32) -> Result<u64, LayoutFault>
        requires { IfSome (body_in self.now aggregate) (λ body. member < length body.members) }
        ensures { bit_seen result ≡ bit_in member (or_incomplete (told_in self.now aggregate is_union)) }
    {
        self.layouts.first_bit(aggregate, is_union, member)
    }

    /// The member that a name names in an aggregate, once its members were told (C11 6.5.2.3 p3). It takes no memory, and one
    /// look-up, as many steps as the logarithm of how many anonymous structures stand around the member, and one for each other
    /// member of this name further outside.
    pub fn member(&self, aggregate: u32, name: NameId) -> Option<FoundMember>
        ensures member { option_map (found_seen (types_in self.now)) result ≡ member_in self.now aggregate name }
        ensures known { IfSome result (λ found. IsTypeId self.now found.of) }
    {
        self.members.find(&self.layouts, aggregate, name)
    }

    /// The first bit of a member that was found, in an aggregate, if that has a layout and such a member. It takes no memory,
    /// and one step.
    pub fn member_bits(&self, aggregate: u32, is_union: bool, found: &FoundMember) -> Option<u64>
        ensures { result ≡ member_bits (or_incomplete (told_in self.now aggregate is_union)) (found_seen (types_in self.now) found.now) }
    {
        found.bits_in(&self.layouts, aggregate, is_union)
    }

    /// Tells the name of a tag or an identity. One that has a name keeps it.
    pub fn set_name(&mut self, what: Named, name: NameId) -> Result<(), AllocError>
        ensures told { OnOk result (self.new ≡ record { rows = self.old.rows; bodies = self.old.bodies; names = with_name self.old.names what name }) }
        ensures err { OnErr result (self.new ≡ self.old) }
    {
        if self.names.contains_key(&what) {
            return Ok(());
        }
        self.names.insert(what, name)?;
        Ok(())
    }

    /// The name of a tag or an identity, once it was told. It takes no memory.
    pub fn name(&self, what: Named) -> Option<NameId>
        ensures { result ≡ name_in self.now what }
    {
        self.names.get(&what).copied()
    }
}

// The qualifiers and flags of a shape.
fn marks_of(shape: &TypeShape) -> Marks
    ensures qualifiers { qualifiers_in result ≡ qualifiers_of_shape shape.now }
    ensures flags { flags_in result ≡ flags_of_shape shape.now }
{
    Marks::new(
        MarkWords {
            is_const: shape.is_const,
            is_volatile: shape.is_volatile,
            noderef: shape.noderef,
        },
        space_key(shape.space),
    )
}

// The space as part of a key.
fn space_key(space: Space) -> SpaceKey
    ensures { space_seen result ≡ space_of space }
{
    match space {
        Space::None => SpaceKey::Absent,
        Space::Number(number) => SpaceKey::Number(number),
        Space::Named(name) => SpaceKey::Named(name.0),
    }
}
