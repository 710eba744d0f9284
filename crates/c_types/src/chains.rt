// The names of structures and unions that stand in one another without a name, each in the next.
//
// Names arrive with what they name, and how one aggregate stands in the next; what a name names in each of them leaves. A name is
// kept once, for the aggregate that brings it, and raised when it is looked up, so a nest of aggregates takes no more memory than its
// names. It is raised over a logarithm of the aggregates between, since some of the steps from each to one inside it are put together.
// Which aggregates these are isn't known here.
ghost use Rattle.std.specs.Prelude.{◌≡◌, ◌+◌, ◌<◌, ◌≤◌, ◌++◌, ◌∷◌, [], IfOk, IfSome, List, OnErr, OnOk, drop, length, take};
ghost use Rattle.std.specs.Map.{lookup};
ghost use Rattle.meaning_layout.specs.Sizes.{Told};
ghost use Rattle.meaning_types.specs.Types.{TypeTree};
ghost use Rattle.c_types.specs.Chains.{AreJumpsOver, AreKnownEntries, AreToldLinks, ChainGrows, IsJumpOver, IsToldMember, all_names, is_from, names_below, newest, or_later, own_name, raised, with_entry};
ghost use Rattle.c_types.specs.Layouts.{told_kept};
ghost use Rattle.c_types.specs.Members.{AreKnownNames, anonymous_around, entries_around, found_around, is_name};

use crate::layouts::Layouts;
use crate::members::{Anonymous, FoundMember};
use indexmap::IndexMap;
use sparse_model::NameId;
use std::alloc::{AllocError, Global};
use std::marker::Model;

/// How an aggregate of a chain stands in one further out.
#[derive(Clone, Copy)]
pub struct Jump {
    /// How many aggregates stand inside the inner one.
    pub level: u32,
    pub anonymous: Anonymous,
}

/// How an aggregate of a chain stands in the next one.
#[derive(Clone, Copy)]
pub struct Link {
    pub anonymous: Anonymous,
    /// A jump to that next one. It is as long as the two jumps below it and the link, where those two are equally long, and else the
    /// link alone, so from each aggregate a logarithm of jumps and links leads down to any other.
    pub jump: Jump,
}

/// A name that an aggregate of a chain brings.
#[derive(Clone, Copy)]
pub struct Layered {
    pub name: NameId,
    /// What it names in that aggregate.
    pub found: FoundMember,
    /// How many aggregates stand inside that one.
    pub level: u32,
    /// The last entry of the same name before this one.
    pub hides: Option<u32>,
}

/// The names of a chain of aggregates, from the innermost one on. Its value is how each stands in the next, and the entries in the
/// order in which they were made: the last one of a name counts.
#[derive(Drop)]
pub struct NameChain {
    links: Vec<Link>,
    entries: Vec<Layered>,
    // The last entry of each name.
    last: IndexMap<NameId, u32>,
}

/// How many aggregates and how many entries a chain may have.
const MAX_ENTRIES: usize = 1 << 30;

impl Jump {
    // From the same aggregate to one further out, in which the one that it leads to stands so.
    fn around(self, layouts: &Layouts, outer: Anonymous) -> Jump
        ensures { result ≡ record { level = self.level; anonymous = anonymous_around (told_kept layouts.now.kept.entries) outer self.anonymous } }
    {
        Jump {
            level: self.level,
            anonymous: self.anonymous.around(layouts, outer),
        }
    }
}

impl Model for NameChain {
    ghost use Rattle.c_types.specs.Chains.{Chain, IsIndexed};

    ghost Value = { Chain };

    ghost view = { λ chain. record { links = chain.links.items; entries = chain.entries.items } };

    ghost invariant = { λ chain. IsIndexed chain.last.entries chain.links.items chain.entries.items };
}

impl NameChain {
    /// The chain of one aggregate without names, in no memory.
    pub fn new(alloc: Global) -> NameChain
        ensures { result ≡ record { links = []; entries = [] } }
    {
        NameChain {
            links: Vec::new(alloc),
            entries: Vec::new(alloc),
            last: IndexMap::new(alloc),
        }
    }

    /// How many aggregates stand inside the outermost one.
    pub fn level(&self) -> u32
        ensures { result ≡ length self.now.links }
    {
        self.links.len() as u32
    }

    /// How many entries there are.
    pub fn count(&self) -> u32
        ensures { result ≡ length self.now.entries }
    {
        self.entries.len() as u32
    }

    // The last of so many first entries with a name.
    fn newest(&self, name: NameId, count: u32) -> Option<u32>
        requires { count ≤ length self.now.entries }
        ensures { result ≡ newest self.now.entries name count }
    {
        let mut last = self.last.get(&name).copied();
        while let Some(index) = last {
            if index < count {
                return Some(index);
            }
            last = self.entries[index as usize].hides;
        }
        None
    }

    // The jump that leads to the aggregate at a level: none to the innermost one.
    fn jump_to(&self, level: u32) -> Option<Jump>
        requires { level ≤ length self.now.links }
        ensures falls { IfSome result (λ jump. jump.level < level) }
        ensures told { IfSome result (λ jump. (told : Told) → AreToldLinks told self.now.links → IsToldMember told jump.anonymous) }
        ensures right { IfSome result (λ jump. (told : Told) → AreJumpsOver told self.now.links → IsJumpOver told self.now.links level jump) }
    {
        if level == 0 {
            return None;
        }
        Some(self.links[level as usize - 1].jump)
    }

    // The longest way down from an aggregate that is kept and doesn't go below another: its jump, or the link below it.
    fn way_down(&self, level: u32, lowest: u32) -> Jump
        requires within { level ≤ length self.now.links }
        requires above { lowest < level }
        ensures falls { result.level < level }
        ensures stays { lowest ≤ result.level }
        ensures right { (told : Told) → AreJumpsOver told self.now.links → IsJumpOver told self.now.links level result }
    {
        let link = self.links[level as usize - 1];
        if link.jump.level >= lowest {
            return link.jump;
        }
        Jump {
            level: level - 1,
            anonymous: link.anonymous,
        }
    }

    // What an entry names in the aggregate at a level.
    fn raised(&self, layouts: &Layouts, entry: Layered, level: u32) -> FoundMember
        requires level { level ≤ length self.now.links }
        requires jumps { AreJumpsOver (told_kept layouts.now.kept.entries) self.now.links }
        ensures { result ≡ raised (told_kept layouts.now.kept.entries) (drop entry.level (take level self.now.links)) entry.found }
    {
        if entry.level >= level {
            return entry.found;
        }
        let mut jump = self.way_down(level, entry.level);
        while jump.level > entry.level {
            jump = self
                .way_down(jump.level, entry.level)
                .around(layouts, jump.anonymous);
        }
        entry.found.around(layouts, jump.anonymous)
    }

    /// What a name names in the aggregate at a level, whose names are so many first entries.
    pub fn find(
        &self,
        layouts: &Layouts,
        level: u32,
        count: u32,
        name: NameId,
    ) -> Option<FoundMember>
        requires level { level ≤ length self.now.links }
        requires count { count ≤ length self.now.entries }
        requires jumps { AreJumpsOver (told_kept layouts.now.kept.entries) self.now.links }
        ensures { result ≡ lookup (is_name name) (names_below (told_kept layouts.now.kept.entries) (take level self.now.links) self.now.entries count) }
    {
        match self.newest(name, count) {
            Some(index) => Some(self.raised(layouts, self.entries[index as usize], level)),
            None => None,
        }
    }

    /// Copies the names of the aggregate at a level, whose names are so many first entries, as those of an aggregate around.
    pub fn copy_names(
        &self,
        layouts: &Layouts,
        anonymous: Anonymous,
        level: u32,
        count: u32,
        names: &mut Vec<(NameId, FoundMember)>,
    ) -> Result<(), AllocError>
        requires level { level ≤ length self.now.links }
        requires count { count ≤ length self.now.entries }
        requires jumps { AreJumpsOver (told_kept layouts.now.kept.entries) self.now.links }
        ensures { OnOk result (names.new.items ≡ names.old.items ++ entries_around (told_kept layouts.now.kept.entries) anonymous (names_below (told_kept layouts.now.kept.entries) (take level self.now.links) self.now.entries count)) }
    {
        let mut index = count;
        while index > 0 {
            index -= 1;
            let entry = self.entries[index as usize];
            let found = self.raised(layouts, entry, level);
            names.push((entry.name, found.around(layouts, anonymous)))?;
        }
        Ok(())
    }

    // Enters a name of the outermost aggregate, unless one of the entries from `first` on has it.
    fn enter(&mut self, name: NameId, found: FoundMember, first: u32) -> Result<(), AllocError>
        ensures links { self.new.links ≡ self.old.links }
        ensures entries { OnOk result (self.new.entries ≡ with_entry self.old first name found) }
        ensures err { OnErr result (self.new ≡ self.old) }
    {
        let hides = self.last.get(&name).copied();
        if is_from(hides, first) {
            return Ok(());
        }
        let index = self.entries.len();
        if index >= MAX_ENTRIES {
            return Err(AllocError);
        }
        self.last.reserve(1)?;
        self.entries.push(Layered {
            name,
            found,
            level: self.links.len() as u32,
            hides,
        })?;
        self.last.insert(name, index as u32).unwrap();
        Ok(())
    }

    /// Enters names of the outermost aggregate, each unless one of the entries from `first` on has it.
    pub fn enter_all(
        &mut self,
        names: &[(NameId, FoundMember)],
        first: u32,
    ) -> Result<(), AllocError>
        requires { first ≤ length self.old.entries }
        ensures links { self.new.links ≡ self.old.links }
        ensures grows { ChainGrows self.old self.new }
        ensures known { (types : List TypeTree) → AreKnownEntries types self.old.entries → AreKnownNames types names.now → AreKnownEntries types self.new.entries }
        ensures named { OnOk result ((told : Told) (asked : NameId) → own_name told self.new first asked ≡ or_later (own_name told self.old first asked) (lookup (is_name asked) names.now)) }
    {
        let mut rest = names;
        'names: while let Some((entry, others)) = rest.split_first() {
            self.enter(entry.0, entry.1, first)?;
            rest = others;
        }
        Ok(())
    }

    // The two newest jumps in one, if they are equally long.
    fn newest_jumps(&self, layouts: &Layouts) -> Option<Jump>
        ensures level { IfSome result (λ jump. jump.level ≤ length self.now.links) }
        ensures told { IfSome result (λ jump. (told : Told) → AreToldLinks told self.now.links → IsToldMember told jump.anonymous) }
        ensures right { IfSome result (λ jump. AreJumpsOver (told_kept layouts.now.kept.entries) self.now.links → IsJumpOver (told_kept layouts.now.kept.entries) self.now.links (length self.now.links) jump) }
    {
        let level = self.level();
        let outer = self.jump_to(level)?;
        let inner = self.jump_to(outer.level)?;
        if level - outer.level == outer.level - inner.level {
            Some(inner.around(layouts, outer.anonymous))
        } else {
            None
        }
    }

    // The jump to one more aggregate, in which the outermost one stands so.
    fn next_jump(&self, layouts: &Layouts, anonymous: Anonymous) -> Jump
        ensures level { result.level ≤ length self.now.links }
        ensures told { (told : Told) → AreToldLinks told self.now.links → IsToldMember told anonymous → IsToldMember told result.anonymous }
        ensures right { AreJumpsOver (told_kept layouts.now.kept.entries) self.now.links → (found : FoundMember) → found_around (told_kept layouts.now.kept.entries) result.anonymous found
            ≡ found_around (told_kept layouts.now.kept.entries) anonymous (raised (told_kept layouts.now.kept.entries) (drop result.level self.now.links) found) }
    {
        match self.newest_jumps(layouts) {
            Some(jump) => jump.around(layouts, anonymous),
            None => Jump {
                level: self.level(),
                anonymous,
            },
        }
    }

    // One more aggregate, in which the outermost one stands so.
    fn surround(&mut self, layouts: &Layouts, anonymous: Anonymous) -> Result<(), AllocError>
        ensures entries { self.new.entries ≡ self.old.entries }
        ensures links { OnOk result ((jump : Jump) × (self.new.links ≡ self.old.links ++ record { anonymous = anonymous; jump = jump } ∷ [])) }
        ensures told { (told : Told) → AreToldLinks told self.old.links → IsToldMember told anonymous → AreToldLinks told self.new.links }
        ensures jumps { AreJumpsOver (told_kept layouts.now.kept.entries) self.old.links → AreJumpsOver (told_kept layouts.now.kept.entries) self.new.links }
        ensures err { OnErr result (self.new ≡ self.old) }
    {
        if self.links.len() >= MAX_ENTRIES {
            return Err(AllocError);
        }
        let jump = self.next_jump(layouts, anonymous);
        self.links.push(Link { anonymous, jump })?;
        Ok(())
    }

    /// One more aggregate, in which the outermost one stands so, with names before those of that one and behind them. How many aggregates
    /// stand inside it, and how many entries there are.
    pub fn extend(
        &mut self,
        layouts: &Layouts,
        anonymous: Anonymous,
        before: &[(NameId, FoundMember)],
        behind: &[(NameId, FoundMember)],
    ) -> Result<(u32, u32), AllocError>
        ensures level { IfOk result (λ size. size.0 ≡ length self.new.links) }
        ensures count { IfOk result (λ size. size.1 ≡ length self.new.entries) }
        ensures longer { OnOk result (length self.new.links ≡ length self.old.links + 1) }
        ensures grows { ChainGrows self.old self.new }
        ensures known { (types : List TypeTree) → AreKnownEntries types self.old.entries → AreKnownNames types before.now → AreKnownNames types behind.now → AreKnownEntries types self.new.entries }
        ensures told { (told : Told) → AreToldLinks told self.old.links → IsToldMember told anonymous → AreToldLinks told self.new.links }
        ensures jumps { AreJumpsOver (told_kept layouts.now.kept.entries) self.old.links → AreJumpsOver (told_kept layouts.now.kept.entries) self.new.links }
        ensures named { OnOk result ((told : Told) (asked : NameId) → lookup (is_name asked) (all_names told self.new) ≡ lookup (is_name asked) (before.now ++ entries_around told anonymous (all_names told self.old) ++ behind.now)) }
    {
        let first = self.entries.len() as u32;
        self.surround(layouts, anonymous)?;
        self.enter_all(before, first)?;
        self.enter_all(behind, 0)?;
        Ok((self.level(), self.count()))
    }
}

// Whether it is an entry from the first of these on.
fn is_from(entry: Option<u32>, first: u32) -> bool
    ensures { result ≡ is_from first entry }
{
    match entry {
        Some(index) => first <= index,
        None => false,
    }
}
