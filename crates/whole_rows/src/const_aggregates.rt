// The aggregates of a unit that have a const member. They are told one by one, beside the table of types, which keeps no more of a
// body than its members. Expressions aren't known here.
ghost use Rattle.std.specs.Prelude.{◌≡◌, [], All, None, OnErr, OnOk};
ghost use Rattle.c_types.specs.Table.{IsBodyOver, IsTypeId, TypeTable, body_in, type_at, types_in};
ghost use Rattle.meaning_typing.specs.Aggregates.{is_const_within};
ghost use Rattle.meaning_typing.specs.Expressions.{is_const};
ghost use Rattle.meaning_typing.specs.OffsetRows.{element_in};
ghost use Rattle.whole_rows.specs.ConstAggregates.{AreConst, is_among, is_one_const, with_body};
ghost use Rattle.whole_rows.specs.Stores.{has_const_in, has_const_member};

use c_types::{AggregateBody, Member, Outline, Types};
use indexmap::IndexSet;
use node_facts::element_of;
use sparse_model::TypeId;
use std::alloc::{AllocError, Global};
use std::marker::Model;

/// The numbers of the aggregates that have a const member.
#[derive(Drop)]
pub struct ConstAggregates {
    set: IndexSet<u32>,
}

impl Model for ConstAggregates {
    ghost use Rattle.std.specs.Prelude.{List, ℕ};

    ghost Value = { List ℕ };

    ghost view = { λ consts. consts.set.keys };
}

// Whether the outermost level of a type is const. It takes a step for each parameter of a function.
fn is_const(types: &Types, t: TypeId) -> bool
    requires { IsTypeId types.now t }
    ensures { result ≡ is_const (type_at types.now t) }
{
    types.shape(t).is_const
}

impl ConstAggregates {
    /// None, in no memory.
    pub fn new(alloc: Global) -> ConstAggregates
        ensures { result ≡ [] }
    {
        ConstAggregates {
            set: IndexSet::new(alloc),
        }
    }

    /// Whether an aggregate has a const member. It takes no memory, and one look-up.
    pub fn has(&self, aggregate: u32) -> bool
        ensures { result ≡ is_among self.now aggregate }
    {
        self.set.contains(&aggregate)
    }

    fn has_const_in(&self, outline: Outline) -> bool
        ensures { result ≡ has_const_in (is_among self.now) outline }
    {
        match outline {
            Outline::Aggregate(number, _) => self.has(number),
            _ => false,
        }
    }

    /// Whether a type is one of aggregates that have a const member. It takes no memory, and one look-up.
    #[tactic(auto, using(crate::proofs::OutlineLemmas::const_member_told))]
    pub fn has_const_member(&self, types: &Types, t: TypeId) -> bool
        requires { IsTypeId types.now t }
        ensures { result ≡ has_const_member (is_among self.now) (type_at types.now t) }
    {
        self.has_const_in(types.outline(t))
    }

    // A type that is no array can't be written whole.
    fn is_const_single(&self, types: &Types, t: TypeId) -> bool
        requires known { IsTypeId types.now t }
        requires single { element_in (type_at types.now t) ≡ None }
        ensures { result ≡ is_const_within (is_among self.now) (type_at types.now t) }
    {
        is_const(types, t) || self.has_const_member(types, t)
    }

    // It can't be written whole: a step for each array within another.
    fn is_const_within(&self, types: &Types, t: TypeId) -> bool
        requires { IsTypeId types.now t }
        ensures { result ≡ is_const_within (is_among self.now) (type_at types.now t) }
    {
        let mut level = t;
        'levels: while let Some(element) = element_of(types, level) {
            if is_const(types, level) {
                return true;
            }
            level = element;
        }
        self.is_const_single(types, level)
    }

    // One of these members can't.
    fn is_one_const(&self, types: &Types, members: &[Member]) -> bool
        requires { All (λ member. IsTypeId types.now member.of) members.now }
        ensures { result ≡ is_one_const (is_among self.now) types.now members.now }
    {
        let mut rest = members;
        'members: while let Some((member, others)) = rest.split_first() {
            if self.is_const_within(types, member.of) {
                return true;
            }
            rest = others;
        }
        false
    }

    /// Tells the members of an aggregate, before the table of types is told them. It takes a step for each member, and for each
    /// level of its type.
    pub fn tell(
        &mut self,
        types: &Types,
        aggregate: u32,
        body: &AggregateBody,
    ) -> Result<(), AllocError>
        requires untold { body_in types.now aggregate ≡ None }
        requires known { IsBodyOver (types_in types.now) body.now }
        requires consts { AreConst types.now self.old }
        ensures told { OnOk result (AreConst (with_body types.now aggregate body.now) self.new) }
        ensures err { OnErr result (self.new ≡ self.old) }
    {
        if self.is_one_const(types, body.members.as_slice()) {
            self.set.insert(aggregate)?;
        }
        Ok(())
    }
}
