// The list of scopes as its callers see it: names arrive by their ids, and what was bound to them last leaves.
// Spellings aren't known here, nor what a declaration says.
use crate::restored::{Key, restore};
use crate::slot::{Binding, Slot, bindings_of};
use indexmap::IndexMap;
use region_alloc::Handle;
use sparse_model::NameId;
use std::alloc::{AllocError, Global};
use std::marker::Model;
use vocabulary::{Bound, NameSpace, TokenClass};

// How many entries and marks may stand at once.
const MOST_SLOTS: usize = 1 << 31;

/// The names that are visible. Its value is the list of entries and marks, the innermost first.
///
/// Whatever an entry hides comes back when its scope is left. To bind, to find and to tell the class of a
/// name take constant time; to leave or to keep a scope takes a step for each of its entries.
#[derive(Drop)]
pub struct Scopes {
    alloc: Global,
    // The place of the newest entry of each name that is bound. The hasher has a fixed seed, so names that
    // were chosen to collide cost time, and nothing else.
    newest: IndexMap<Key, u32>,
    // Entries and marks, as they came.
    slots: Vec<Slot>,
    // How many slots stand up to the last mark, with it.
    opened: u32,
}

impl Model for Scopes {
    ghost use Rattle.std.specs.Prelude.{List};
    ghost use Rattle.sparse_model.specs.declared.ids.NameId.{NameId};
    ghost use Rattle.meaning_scopes.specs.Scopes.{ScopeItem};

    ghost Value = { List (ScopeItem NameId) };

    ghost use Rattle.std.specs.Prelude.{reverse, map};
    ghost use Rattle.indexmap.specs.IndexMap.{get};
    ghost use Rattle.c_scope.specs.Slots.{IsIndex, item_of, same_key};

    ghost view = { λ scopes. map item_of (reverse scopes.slots.items) };

    ghost invariant = { λ scopes. IsIndex (get same_key scopes.newest) (reverse scopes.slots.items) scopes.opened };
}

impl Scopes {
    ghost use Rattle.std.specs.Prelude.{◌≡◌, true, [], ◌∷◌, IfOk, OnErr, OnOk, map, option_map, reverse};
    ghost use Rattle.meaning_scopes.specs.Scopes.{Binds, Opened, find, innermost, is_open, with_entries, without_scope};
    ghost use Rattle.meaning_scopes.specs.Classes.{class_of_name};
    ghost use Rattle.c_scope.specs.Seen.{entry_of, entry_with, same_name, told_of};

    /// No scope but that of the file, in which nothing is bound. It takes no memory.
    pub fn new(alloc: Global) -> Scopes
        ensures { result ≡ [] }
    {
        Scopes {
            alloc,
            newest: IndexMap::new(alloc),
            slots: Vec::new(alloc),
            opened: 0,
        }
    }

    /// Whether a scope is open, so that it can be left.
    pub fn is_open(&self) -> bool
        ensures { result ≡ is_open self.now }
    {
        self.opened > 0
    }

    /// Opens a scope in the innermost one.
    pub fn enter(&mut self) -> Result<(), AllocError>
        ensures ok { OnOk result (self.new ≡ Opened ∷ self.old) }
        ensures err { OnErr result (self.new ≡ self.old) }
    {
        let count = self.slots.len();
        if count >= MOST_SLOTS {
            return Err(AllocError);
        }
        self.slots.push(Slot::Mark(self.opened))?;
        self.opened = count as u32 + 1;
        Ok(())
    }

    /// Leaves the innermost scope, which was opened. What it hid is visible again. It takes no memory.
    pub fn leave(&mut self)
        requires { is_open self.old ≡ true }
        ensures { self.new ≡ without_scope self.old }
    {
        while let Some(slot) = self.slots.pop() {
            match slot {
                Slot::Mark(opened) => {
                    self.opened = opened;
                    return;
                }
                Slot::Name(binding, hides) => {
                    restore(&mut self.newest, (binding.space, binding.name), hides);
                }
            }
        }
    }

    /// Binds a name in the innermost scope: it stands for this from now on, until the scope is left.
    pub fn bind(
        &mut self,
        space: NameSpace,
        name: NameId,
        handle: Handle,
        bound: Bound,
    ) -> Result<(), AllocError>
        ensures ok { OnOk result (self.new ≡ Binds (entry_with space name handle bound) ∷ self.old) }
        ensures err { OnErr result (self.new ≡ self.old) }
    {
        let place = self.slots.len();
        if place >= MOST_SLOTS {
            return Err(AllocError);
        }
        // There is room before the map changes.
        self.slots.reserve(1)?;
        let hides = self.newest.insert((space, name), place as u32)?;
        let binding = Binding {
            name,
            handle,
            space,
            bound,
        };
        self.slots.push_reserved(Slot::Name(binding, hides));
        Ok(())
    }

    /// What a name stands for (C11 6.2.1 p4): what declared it, as what, and whether the innermost scope
    /// itself binds it. It takes no memory.
    pub fn find(&self, space: NameSpace, name: NameId) -> Option<(Handle, Bound, bool)>
        ensures { result ≡ option_map told_of (find same_name self.now space name) }
    {
        let place = *self.newest.get(&(space, name))?;
        match self.slots[place as usize] {
            Slot::Name(binding, _) => Some((binding.handle, binding.bound, self.opened <= place)),
            Slot::Mark(_) => None,
        }
    }

    /// How the grammar takes a name that is no keyword: as a typedef name where it stands for one, and as
    /// an identifier otherwise. It takes no memory.
    pub fn class(&self, name: NameId) -> TokenClass
        ensures { result ≡ class_of_name same_name self.now name }
    {
        match self.find(NameSpace::Ordinary, name) {
            Some((_, Bound::Typedef, _)) => TokenClass::TypedefName,
            _ => TokenClass::Identifier,
        }
    }

    /// Leaves the innermost scope, which was opened, and answers its entries in the order in which they
    /// were bound.
    pub fn keep(&mut self) -> Result<Vec<Binding>, AllocError>
        requires { is_open self.old ≡ true }
        ensures kept { IfOk result (λ kept. map entry_of kept.items ≡ reverse (innermost self.old)) }
        ensures ok { OnOk result (self.new ≡ without_scope self.old) }
        ensures err { OnErr result (self.new ≡ self.old) }
    {
        let kept = bindings_of(self.alloc, &self.slots[self.opened as usize..])?;
        self.leave();
        Ok(kept)
    }

    /// Opens a scope in the innermost one, and binds these in it in their order.
    pub fn reopen(&mut self, bindings: &[Binding]) -> Result<(), AllocError>
        ensures ok { OnOk result (self.new ≡ with_entries (Opened ∷ self.old) (map entry_of bindings.now)) }
        ensures err { OnErr result (self.new ≡ self.old) }
    {
        self.enter()?;
        let bound = self.bind_all(bindings);
        if bound.is_err() {
            self.leave();
        }
        bound
    }

    // Binds these in the innermost scope in their order, or some of them.
    fn bind_all(&mut self, bindings: &[Binding]) -> Result<(), AllocError>
        ensures ok { OnOk result (self.new ≡ with_entries self.old (map entry_of bindings.now)) }
        ensures open_ { is_open self.new ≡ is_open self.old }
        ensures outer { without_scope self.new ≡ without_scope self.old }
    {
        for binding in bindings {
            self.bind(binding.space, binding.name, binding.handle, binding.bound)?;
        }
        Ok(())
    }
}
