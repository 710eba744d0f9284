// The map of the newest entries where an entry goes: the name and the index of the entry that it hid arrive, and the
// map has that one again, or nothing. What stands in an entry isn't known here.
ghost use Rattle.std.specs.Prelude.{◌≡◌, IsSome, cond};
ghost use Rattle.indexmap.specs.IndexMap.{get};
ghost use Rattle.vocabulary.specs.declared.scope.NameSpace.{NameSpace};
ghost use Rattle.sparse_model.specs.declared.ids.NameId.{NameId};
ghost use Rattle.c_scope.specs.Slots.{same_key};

use indexmap::IndexMap;
use sparse_model::NameId;
use vocabulary::NameSpace;

/// A name in its name space.
pub(crate) type Key = (NameSpace, NameId);

/// Puts back the entry that was hidden, or takes the name out. It takes no memory.
pub(crate) fn restore(newest: &mut IndexMap<Key, u32>, key: Key, hides: Option<u32>)
    requires { IsSome (get same_key newest.old key) }
    ensures { (other : NameSpace × NameId) → get same_key newest.new other ≡ cond (same_key key other) hides (get same_key newest.old other) }
{
    match hides {
        Some(place) => {
            let written = newest.insert(key, place);
            prove!(written.is_ok());
        }
        None => {
            let _gone = newest.swap_remove(&key);
        }
    }
}
