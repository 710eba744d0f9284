// What the nodes of a unit stand in, as it is kept: twelve bytes a node, and each setting once for nodes whose handles are near.
ghost use Rattle.std.specs.Prelude.{◌≡◌, ◌<◌, Some, length, replicate, slice_get, slice_set, IfOk, OnErr, OnOk};

use crate::settings::{list_of, lists_with, number_in};
use crate::surrounding::{Around, Surrounding, Want};
use c_tree::Handle;
use std::alloc::{AllocError, Global};
use std::marker::Model;

// What a node stands in. Who is around it is told by the number of a setting in the list of its handle.
#[derive(Clone, Copy)]
pub struct Entry {
    pub parent: Handle,
    pub place: u32,
    pub setting: u16,
    pub want: Want,
    pub is_evaluated: bool,
}

const _: () = prove!(size_of::<Entry>() == 12);

impl Entry {
    ghost use Rattle.node_surroundings.specs.Kept.{entry_of};

    // The entry of a node that stands so, where the setting has this number.
    fn new(setting: u16, surrounding: Surrounding) -> Entry
        ensures { result ≡ entry_of setting surrounding }
    {
        Entry {
            parent: surrounding.parent,
            place: surrounding.place,
            setting,
            want: surrounding.want,
            is_evaluated: surrounding.is_evaluated,
        }
    }
}

/// What each node of a unit stands in, by its handle.
#[derive(Drop)]
pub struct Surroundings {
    entries: Vec<Entry>,
    settings: Vec<Vec<Around>>,
}

impl Model for Surroundings {
    ghost use Rattle.std.specs.Prelude.{List, length};
    ghost use Rattle.node_surroundings.specs.declared.surrounding.Surrounding.{Surrounding};
    ghost use Rattle.node_surroundings.specs.Kept.{AreWithin, entries_seen, settings_at};

    ghost Value = { List Surrounding };

    ghost view = { λ kept. entries_seen (settings_at kept.settings.items) 0 kept.entries.items };

    ghost invariant = { λ kept. AreWithin (settings_at kept.settings.items) 0 kept.entries.items };
}

impl Surroundings {
    ghost use Rattle.meaning_typing.specs.Surroundings.{surrounding_at};
    ghost use Rattle.node_surroundings.specs.Seen.{surrounding_seen, surroundings_seen};

    /// So many nodes, which all stand in the same.
    pub(crate) fn filled(
        alloc: Global,
        count: u32,
        surrounding: Surrounding,
    ) -> Result<Surroundings, AllocError>
        ensures { IfOk result (λ filled. filled ≡ replicate count surrounding) }
    {
        let settings = lists_with(alloc, list_of(count) + 1, surrounding.around)?;
        let entries = vec![in alloc; Entry::new(0, surrounding); count as usize]?;
        Ok(Surroundings { entries, settings })
    }

    /// Changes what a node stands in.
    pub(crate) fn set(&mut self, handle: Handle, surrounding: Surrounding) -> Result<(), AllocError>
        requires node { handle < length self.old }
        requires parent { surrounding.parent < length self.old }
        ensures ok { OnOk result (self.new ≡ slice_set self.old handle surrounding) }
        ensures err { OnErr result (self.new ≡ self.old) }
    {
        // Most nodes have the setting of the node above, or that of the part before.
        let outer = self.entries[surrounding.parent as usize].setting;
        let list = list_of(handle);
        let setting = number_in(&mut self.settings, list, outer, surrounding.around)?;
        self.entries[handle as usize] = Entry::new(setting, surrounding);
        Ok(())
    }

    /// How many nodes there are.
    pub fn len(&self) -> usize
        ensures { result ≡ length self.now }
    {
        self.entries.len()
    }

    /// What a node stands in.
    pub fn get(&self, handle: Handle) -> Surrounding
        requires { handle < length self.now }
        ensures kept { slice_get self.now handle ≡ Some result }
        ensures seen { surrounding_seen result ≡ surrounding_at (surroundings_seen self.now) handle }
    {
        let entry = self.entries[handle as usize];
        let settings = &self.settings[list_of(handle)];
        Surrounding {
            parent: entry.parent,
            place: entry.place,
            want: entry.want,
            is_evaluated: entry.is_evaluated,
            around: settings[entry.setting as usize],
        }
    }
}
