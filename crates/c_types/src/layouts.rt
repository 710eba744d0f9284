// The layouts of aggregates, each made once from what its members take.
ghost use Rattle.std.specs.Prelude.{◌≡◌, ◌<◌, ◌≤◌, [], IfOk, OnOk, Some, length, nat_eq, true};
ghost use Rattle.indexmap.specs.IndexMap.{insert_entry, spare};
ghost use Rattle.c_types.specs.Elements.{elements_extent, single_extent};
ghost use Rattle.meaning_layout.specs.Members.{first_bit_in};
ghost use Rattle.meaning_layout.specs.Sizes.{told_extent};
ghost use Rattle.meaning_layout.specs.Telling.{or_incomplete};
ghost use Rattle.c_types.specs.Layouts.{bit_in, bit_seen, extent_seen, layout_kept, told_kept};

use crate::elements::{Elements, Single};
use body_layout::{BodyLayout, Extent, MOST_BYTES};
use indexmap::IndexMap;
use std::alloc::{AllocError, Global};

/// Why a type has no size.
#[derive(Clone, Copy, Debug, PartialEq, Eq)]
pub enum LayoutFault {
    /// It is void, a function, an array without a length, or an aggregate whose members weren't told, or is
    /// made of such a type.
    Incomplete,
    /// It would have more than 2^40 bytes.
    TooLarge,
}

/// Where the members of an aggregate lie if it is a structure, and what it takes if it is a union: whoever
/// tells its members doesn't say which it is.
#[derive(Drop)]
pub struct AggregateLayout {
    pub structure: Result<BodyLayout, LayoutFault>,
    pub union: Result<Extent, LayoutFault>,
    /// How many members there are.
    pub count: usize,
}

/// The layouts of the aggregates that were told.
#[derive(Drop)]
pub struct Layouts {
    pub kept: IndexMap<u32, AggregateLayout>,
}

impl AggregateLayout {
    /// What a structure or a union takes.
    pub fn extent(&self, is_union: bool) -> Result<Extent, LayoutFault>
        ensures { extent_seen result ≡ told_extent (Some (layout_kept self.now is_union)) }
    {
        if is_union {
            return self.union;
        }
        match &self.structure {
            Ok(layout) => Ok(Extent {
                size: layout.size,
                align: layout.align,
            }),
            Err(fault) => Err(*fault),
        }
    }

    /// The first bit of a member.
    fn first_bit(&self, is_union: bool, member: u32) -> Result<u64, LayoutFault>
        requires { IfOk (layout_kept self.now is_union) (λ layout. member < length layout.first_bits) }
        ensures { bit_seen result ≡ bit_in member (layout_kept self.now is_union) }
    {
        if is_union {
            return self.union.map(|_| 0);
        }
        match &self.structure {
            Ok(layout) => Ok(layout.first_bits[member as usize]),
            Err(fault) => Err(*fault),
        }
    }

    // The first bit of a member, if there is one with this number.
    fn bit_of(&self, is_union: bool, member: u32) -> Option<u64>
        ensures { result ≡ first_bit_in member (layout_kept self.now is_union) }
    {
        if is_union {
            return self.bit_of_union(member);
        }
        match &self.structure {
            Ok(layout) => layout.first_bits.get(member as usize).copied(),
            Err(_) => None,
        }
    }

    // All members of a union begin with the first bit.
    fn bit_of_union(&self, member: u32) -> Option<u64>
        ensures { result ≡ first_bit_in member (layout_kept self.now true) }
    {
        let _extent = self.union.ok()?;
        if (member as usize) < self.count {
            Some(0)
        } else {
            None
        }
    }
}

impl Layouts {
    /// None, in no memory.
    pub fn new(alloc: Global) -> Layouts
        ensures { result.kept.entries ≡ [] }
    {
        Layouts {
            kept: IndexMap::new(alloc),
        }
    }

    /// Makes room for one more.
    pub fn reserve(&mut self) -> Result<(), AllocError>
        ensures same { self.new.kept.entries ≡ self.old.kept.entries }
        ensures room { OnOk result (0 < spare self.new.kept) }
    {
        self.kept.reserve(1)
    }

    /// Keeps one more, for which there is room.
    pub fn keep(&mut self, aggregate: u32, layout: AggregateLayout)
        requires { 0 < spare self.old.kept }
        ensures { self.new.kept.entries ≡ insert_entry nat_eq self.old.kept.entries aggregate layout }
    {
        self.kept.insert(aggregate, layout).unwrap();
    }

    /// What types take that are made so.
    pub fn extent(&self, elements: Elements) -> Result<Extent, LayoutFault>
        ensures { extent_seen result ≡ elements_extent (told_kept self.now.kept.entries) elements }
    {
        let one = self.single(elements.single())?;
        if elements.most().saturating_mul(one.size) > MOST_BYTES {
            return Err(LayoutFault::TooLarge);
        }
        Ok(Extent {
            size: elements.count() * one.size,
            align: one.align,
        })
    }

    // What one of them takes.
    fn single(&self, of: Single) -> Result<Extent, LayoutFault>
        ensures { extent_seen result ≡ single_extent (told_kept self.now.kept.entries) of }
    {
        match of {
            Single::Scalar(bytes) => Ok(Extent {
                size: bytes,
                align: bytes,
            }),
            Single::Sizeless => Err(LayoutFault::Incomplete),
            Single::Aggregate(number, is_union) => match self.kept.get(&number) {
                Some(layout) => layout.extent(is_union),
                None => Err(LayoutFault::Incomplete),
            },
        }
    }

    /// The first bit of a member of an aggregate, once its members were told.
    pub fn first_bit(&self, aggregate: u32, is_union: bool, member: u32) -> Result<u64, LayoutFault>
        requires { IfOk (or_incomplete (told_kept self.now.kept.entries aggregate is_union)) (λ layout. member < length layout.first_bits) }
        ensures { bit_seen result ≡ bit_in member (or_incomplete (told_kept self.now.kept.entries aggregate is_union)) }
    {
        match self.kept.get(&aggregate) {
            Some(layout) => layout.first_bit(is_union, member),
            None => Err(LayoutFault::Incomplete),
        }
    }

    /// The first bit of a member, if its aggregate has a layout and a member with this number.
    pub fn bit_of(&self, aggregate: u32, is_union: bool, member: u32) -> Option<u64>
        ensures { result ≡ first_bit_in member (or_incomplete (told_kept self.now.kept.entries aggregate is_union)) }
    {
        match self.kept.get(&aggregate) {
            Some(layout) => layout.bit_of(is_union, member),
            None => None,
        }
    }
}
