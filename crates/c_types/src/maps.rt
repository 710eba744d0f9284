// Where the names of each aggregate stand, which was told.
//
// The members of an aggregate arrive, whose anonymous ones were told before; its names stand behind those of the anonymous member
// that has the most of them, and the names of the others are copied. So a name is copied only into more names than it stood among.
ghost use Rattle.std.specs.Prelude.{◌≡◌, ◌<◌, ◌≤◌, ◌+◌, ◌++◌, ◌^◌, ◌⊎◌, ◌∷◌, [], IfOk, IfSome, List, None, OnErr, OnOk, length, nat_eq, option_map, true};
ghost use Rattle.meaning_types.specs.Types.{TypeTree};
ghost use Rattle.std.specs.Map.{lookup};
ghost use Rattle.indexmap.specs.IndexMap.{insert_entry, spare};
ghost use Rattle.sparse_model.specs.declared.ids.NameId.{NameId};
ghost use Rattle.c_types.specs.Layouts.{told_kept};
ghost use Rattle.c_types.specs.Chains.{AreKnownEntries, all_names};
ghost use Rattle.c_types.specs.Maps.{AreKnownMembers, AreMaps, AreMapsOver, AreNamedOver, AreStandings, IsEnteredOver, IsHeavy, IsHeavyAmong, IsKnownMember, IsOutermost, IsStanding, names_kept, names_of_all, names_of_one};
ghost use Rattle.c_types.specs.Members.{AreKnownNames, found_seen, is_name, names_seen};
ghost use Rattle.c_types.specs.Rows.{AreRows, types_of};

use crate::bodies::Member;
use crate::chains::NameChain;
use crate::layouts::Layouts;
use crate::members::{Anonymous, FoundMember};
use crate::rows::Rows;
use indexmap::IndexMap;
use sparse_model::NameId;
use std::alloc::{AllocError, Global};

/// Where an aggregate stands: in which chain, how many aggregates of it stand inside this one, and how many first entries of it are
/// its names.
#[derive(Clone, Copy)]
pub struct Standing {
    pub chain: u32,
    pub level: u32,
    pub count: u32,
}

/// An anonymous member whose chain can go on.
#[derive(Clone, Copy)]
pub struct Heavy {
    pub anonymous: Anonymous,
    pub standing: Standing,
}

/// The names of the aggregates that were told.
#[derive(Drop)]
pub struct MemberMaps {
    pub chains: Vec<NameChain>,
    pub kept: IndexMap<u32, Standing>,
}

/// How many members an aggregate may have, and how many chains there may be.
const MAX_MEMBERS: usize = 1 << 30;

impl MemberMaps {
    /// None, in no memory.
    pub fn new(alloc: Global) -> MemberMaps
        ensures chains { result.chains.items ≡ [] }
        ensures kept { result.kept.entries ≡ [] }
    {
        MemberMaps {
            chains: Vec::new(alloc),
            kept: IndexMap::new(alloc),
        }
    }

    /// Makes room for one more.
    pub fn reserve(&mut self) -> Result<(), AllocError>
        ensures chains { self.new.chains.items ≡ self.old.chains.items }
        ensures same { self.new.kept.entries ≡ self.old.kept.entries }
        ensures room { OnOk result (0 < spare self.new.kept) }
    {
        self.kept.reserve(1)
    }

    /// Keeps where one more aggregate stands, for which there is room.
    pub fn keep(&mut self, aggregate: u32, standing: Standing)
        requires { 0 < spare self.old.kept }
        ensures chains { self.new.chains.items ≡ self.old.chains.items }
        ensures kept { self.new.kept.entries ≡ insert_entry nat_eq self.old.kept.entries aggregate standing }
    {
        self.kept.insert(aggregate, standing).unwrap();
    }

    /// What a name names in an aggregate.
    pub fn find(&self, layouts: &Layouts, aggregate: u32, name: NameId) -> Option<FoundMember>
        requires { (types : List TypeTree) × AreMaps types (told_kept layouts.now.kept.entries) self.now.chains.items self.now.kept.entries }
        ensures seen { (types : List TypeTree) → option_map (found_seen types) result ≡ lookup (is_name name) (names_kept types (told_kept layouts.now.kept.entries) self.now.chains.items self.now.kept.entries aggregate) }
        ensures known { (types : List TypeTree) → AreMaps types (told_kept layouts.now.kept.entries) self.now.chains.items self.now.kept.entries → IfSome result (λ found. found.of.0 < length types) }
    {
        match self.kept.get(&aggregate) {
            Some(standing) => self.chains[standing.chain as usize].find(
                layouts,
                standing.level,
                standing.count,
                name,
            ),
            None => None,
        }
    }

    // Copies the names that a member without a name brings.
    fn copy_unnamed(
        &self,
        rows: &Rows,
        layouts: &Layouts,
        place: u32,
        member: Member,
        names: &mut Vec<(NameId, FoundMember)>,
    ) -> Result<(), AllocError>
        requires rows { AreRows rows.now.rows.entries }
        requires known { IsKnownMember rows.now member }
        requires unnamed { member.name ≡ None }
        requires maps { AreMapsOver rows.now layouts.now self.now }
        ensures names { OnOk result (names_seen (types_of rows.now.rows.entries) names.new.items
            ≡ names_seen (types_of rows.now.rows.entries) names.old.items
            ++ names_of_one rows.now layouts.now self.now place member) }
        ensures known { OnOk result (AreKnownNames (types_of rows.now.rows.entries) names.old.items → AreKnownNames (types_of rows.now.rows.entries) names.new.items) }
    {
        if member.width.is_some() {
            return Ok(());
        }
        let Some(anonymous) = rows.anonymous(place, member.of.0) else {
            return Ok(());
        };
        match self.kept.get(&anonymous.number) {
            Some(standing) => self.chains[standing.chain as usize].copy_names(
                layouts,
                anonymous,
                standing.level,
                standing.count,
                names,
            ),
            None => Ok(()),
        }
    }

    // Copies the names that a member brings.
    fn copy_member(
        &self,
        rows: &Rows,
        layouts: &Layouts,
        place: u32,
        member: Member,
        names: &mut Vec<(NameId, FoundMember)>,
    ) -> Result<(), AllocError>
        requires rows { AreRows rows.now.rows.entries }
        requires known { IsKnownMember rows.now member }
        requires maps { AreMapsOver rows.now layouts.now self.now }
        ensures names { OnOk result (names_seen (types_of rows.now.rows.entries) names.new.items
            ≡ names_seen (types_of rows.now.rows.entries) names.old.items
            ++ names_of_one rows.now layouts.now self.now place member) }
        ensures known { OnOk result (AreKnownNames (types_of rows.now.rows.entries) names.old.items → AreKnownNames (types_of rows.now.rows.entries) names.new.items) }
    {
        match member.name {
            Some(name) => {
                names.push((name, rows.own_member(place, member)))?;
                Ok(())
            }
            None => self.copy_unnamed(rows, layouts, place, member, names),
        }
    }

    // The names that members bring, from this place on.
    fn names_of(
        &self,
        alloc: Global,
        rows: &Rows,
        layouts: &Layouts,
        first: u32,
        members: &[Member],
    ) -> Result<Vec<(NameId, FoundMember)>, AllocError>
        requires rows { AreRows rows.now.rows.entries }
        requires known { AreKnownMembers rows.now members.now }
        requires maps { AreMapsOver rows.now layouts.now self.now }
        requires few { first + length members.now ≤ 2 ^ 30 }
        ensures names { IfOk result (λ names. names_seen (types_of rows.now.rows.entries) names.items
            ≡ names_of_all rows.now layouts.now self.now first members.now) }
        ensures known { IfOk result (λ names. AreKnownNames (types_of rows.now.rows.entries) names.items) }
    {
        let mut names = Vec::new(alloc);
        let mut place = first;
        let mut rest = members;
        'members: while let Some((member, others)) = rest.split_first() {
            self.copy_member(rows, layouts, place, *member, &mut names)?;
            place += 1;
            rest = others;
        }
        Ok(names)
    }

    // A member whose chain can go on: an anonymous aggregate that is the outermost one of its chain.
    fn heavy(&self, rows: &Rows, place: u32, member: Member) -> Option<Heavy>
        requires rows { AreRows rows.now.rows.entries }
        requires known { IsKnownMember rows.now member }
        requires standings { AreStandings self.now.chains.items self.now.kept.entries }
        ensures { IfSome result (IsHeavy (types_of rows.now.rows.entries) self.now.chains.items self.now.kept.entries place member) }
    {
        if member.name.is_some() || member.width.is_some() {
            return None;
        }
        let anonymous = rows.anonymous(place, member.of.0)?;
        let standing = self.kept.get(&anonymous.number).copied()?;
        if self.is_outermost(standing) {
            Some(Heavy {
                anonymous,
                standing,
            })
        } else {
            None
        }
    }

    // Whether an aggregate is the outermost one of its chain.
    fn is_outermost(&self, standing: Standing) -> bool
        requires { IsStanding self.now.chains.items standing }
        ensures { result ≡ true → IsOutermost self.now.chains.items standing }
    {
        let chain = &self.chains[standing.chain as usize];
        standing.level == chain.level() && standing.count == chain.count()
    }

    // The member with the most names whose chain can go on.
    fn heaviest(&self, rows: &Rows, members: &[Member]) -> Option<Heavy>
        requires rows { AreRows rows.now.rows.entries }
        requires known { AreKnownMembers rows.now members.now }
        requires standings { AreStandings self.now.chains.items self.now.kept.entries }
        requires few { length members.now ≤ 2 ^ 30 }
        ensures { IfSome result (λ heavy. IsHeavyAmong rows.now self.now members.now heavy) }
    {
        let mut heaviest = None;
        for place in 0..members.len() {
            heaviest = heavier(heaviest, self.heavy(rows, place as u32, members[place]));
        }
        heaviest
    }

    // A chain of its own for the names of members.
    fn chain_of(
        &self,
        alloc: Global,
        rows: &Rows,
        layouts: &Layouts,
        members: &[Member],
    ) -> Result<NameChain, AllocError>
        requires rows { AreRows rows.now.rows.entries }
        requires known { AreKnownMembers rows.now members.now }
        requires few { length members.now ≤ 2 ^ 30 }
        requires maps { AreMapsOver rows.now layouts.now self.now }
        ensures bare { IfOk result (λ chain. chain.links ≡ []) }
        ensures known { IfOk result (λ chain. AreKnownEntries (types_of rows.now.rows.entries) chain.entries) }
        ensures named { IfOk result (λ chain. (asked : NameId) → lookup (is_name asked) (names_seen (types_of rows.now.rows.entries) (all_names (told_kept layouts.now.kept.entries) chain))
            ≡ lookup (is_name asked) (names_of_all rows.now layouts.now self.now 0 members.now)) }
    {
        let names = self.names_of(alloc, rows, layouts, 0, members)?;
        let mut chain = NameChain::new(alloc);
        chain.enter_all(names.as_slice(), 0)?;
        Ok(chain)
    }

    // One chain more, and where its aggregate stands.
    fn add(&mut self, chain: NameChain) -> Result<Standing, AllocError>
        ensures kept { self.new.kept ≡ self.old.kept }
        ensures chains { OnOk result (self.new.chains.items ≡ self.old.chains.items ++ chain ∷ []) }
        ensures standing { IfOk result (λ standing. standing ≡ record { chain = length self.old.chains.items; level = 0; count = length chain.entries }) }
        ensures err { OnErr result (self.new.chains.items ≡ self.old.chains.items) }
    {
        let place = self.chains.len();
        if place >= MAX_MEMBERS {
            return Err(AllocError);
        }
        let count = chain.count();
        self.chains.push(chain)?;
        Ok(Standing {
            chain: place as u32,
            level: 0,
            count,
        })
    }

    // Enters the names of members into a chain of their own.
    fn begin(
        &mut self,
        alloc: Global,
        rows: &Rows,
        layouts: &Layouts,
        members: &[Member],
    ) -> Result<Standing, AllocError>
        requires rows { AreRows rows.now.rows.entries }
        requires known { AreKnownMembers rows.now members.now }
        requires few { length members.now ≤ 2 ^ 30 }
        requires maps { AreMapsOver rows.now layouts.now self.old }
        ensures kept { self.new.kept ≡ self.old.kept }
        ensures right { IsEnteredOver rows.now layouts.now self.old self.new }
        ensures named { IfOk result (AreNamedOver rows.now layouts.now self.old self.new members.now) }
    {
        let chain = self.chain_of(alloc, rows, layouts, members)?;
        self.add(chain)
    }

    // Enters the names of members into the chain of one of them.
    fn extend(
        &mut self,
        alloc: Global,
        rows: &Rows,
        layouts: &Layouts,
        members: &[Member],
        heavy: Heavy,
    ) -> Result<Standing, AllocError>
        requires rows { AreRows rows.now.rows.entries }
        requires known { AreKnownMembers rows.now members.now }
        requires few { length members.now ≤ 2 ^ 30 }
        requires maps { AreMapsOver rows.now layouts.now self.old }
        requires heavy { IsHeavyAmong rows.now self.old members.now heavy }
        ensures kept { self.new.kept ≡ self.old.kept }
        ensures right { IsEnteredOver rows.now layouts.now self.old self.new }
        ensures named { IfOk result (AreNamedOver rows.now layouts.now self.old self.new members.now) }
    {
        let place = heavy.anonymous.place;
        let (before, _) = members.split_at(place as usize);
        let (_, behind) = members.split_at(place as usize + 1);
        let before = self.names_of(alloc, rows, layouts, 0, before)?;
        let behind = self.names_of(alloc, rows, layouts, place + 1, behind)?;
        let chain = heavy.standing.chain;
        let size = self.chains[chain as usize].extend(
            layouts,
            heavy.anonymous,
            before.as_slice(),
            behind.as_slice(),
        )?;
        Ok(Standing {
            chain,
            level: size.0,
            count: size.1,
        })
    }

    /// Enters the names of members with these types, by those that are kept, and says where they stand. More than 2^30 of them are
    /// want of memory. It takes a step for each member, and for each name of the anonymous ones but the one with the most names: one,
    /// and the logarithm of how many anonymous structures stand around it there.
    pub fn enter(
        &mut self,
        alloc: Global,
        rows: &Rows,
        layouts: &Layouts,
        members: &[Member],
    ) -> Result<Standing, AllocError>
        requires rows { AreRows rows.now.rows.entries }
        requires known { AreKnownMembers rows.now members.now }
        requires maps { AreMapsOver rows.now layouts.now self.old }
        ensures kept { self.new.kept ≡ self.old.kept }
        ensures right { IsEnteredOver rows.now layouts.now self.old self.new }
        ensures named { IfOk result (AreNamedOver rows.now layouts.now self.old self.new members.now) }
    {
        if members.len() > MAX_MEMBERS {
            return Err(AllocError);
        }
        match self.heaviest(rows, members) {
            Some(heavy) => self.extend(alloc, rows, layouts, members, heavy),
            None => self.begin(alloc, rows, layouts, members),
        }
    }
}

// The one with more names.
fn heavier(one: Option<Heavy>, other: Option<Heavy>) -> Option<Heavy>
    ensures { (result ≡ one) ⊎ (result ≡ other) }
{
    match (one, other) {
        (Some(first), Some(second)) => {
            if second.standing.count > first.standing.count {
                Some(second)
            } else {
                Some(first)
            }
        }
        (None, other) => other,
        (one, None) => one,
    }
}
