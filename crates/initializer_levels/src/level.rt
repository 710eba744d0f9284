// Objects and parts that are filled part by part, as they are kept.
ghost use Rattle.std.specs.Prelude.{◌≡◌, ℕ, IfOk, List, is_some, option_map};
ghost use Rattle.meaning_initializers.specs.Items.{Items};
ghost use Rattle.c_types.specs.Table.{IsTypeId, TypeTable};
ghost use Rattle.initializer_levels.specs.Levels as meaning;
ghost use Rattle.initializer_levels.specs.Kept.{IsKnownLevel, goes_on_kept, length_kept, level_seen};
ghost use Rattle.initializer_levels.specs.Parts.{type_seen};
ghost use Rattle.initializer_levels.specs.Paths.{IsPathIn, path_at};

use crate::items::ItemList;
use crate::parts::{PartType, Parts, parts_of};
use crate::paths::PathId;
use c_types::Types;
use std::alloc::AllocError;

/// An object or a part that is being filled part by part.
#[derive(Drop)]
pub struct Level {
    pub of: PartType,
    pub parts: Parts,
    /// Where it stands in the object; none is the object itself.
    pub path: Option<PathId>,
    /// Of the part that is being filled, or from which on the next one is sought.
    pub number: u64,
    /// None of its parts takes the next item.
    pub is_over: bool,
    /// A designator led to the part that is being filled.
    pub is_designated: bool,
    /// It took an item.
    pub is_filled: bool,
    /// How many elements it gives an array that has no length, so far.
    pub length: u64,
    /// The items behind its braces, where it has some.
    pub behind: Option<ItemList>,
}

// How many elements there are up to the part with this number, if it took an item.
fn length_with(length: u64, next: u64, is_filled: bool) -> u64
    ensures { result ≡ length_kept length next is_filled }
{
    if is_filled && next > length {
        next
    } else {
        length
    }
}

impl Level {
    /// Nothing of it is filled yet. It takes no memory.
    pub fn opened(
        types: &Types,
        of: PartType,
        path: Option<PathId>,
        behind: Option<ItemList>,
    ) -> Level
        requires { IsTypeId types.now of.of }
        ensures level { (paths : List (List ℕ)) (read : ItemList → Items) → level_seen types.now paths read result ≡ meaning.opened (type_seen types.now of) (path_at paths path) (option_map read behind) }
        ensures known { (paths : List (List ℕ)) → IsPathIn paths path → IsKnownLevel types.now paths result }
    {
        Level {
            of,
            parts: parts_of(types, of),
            path,
            number: 0,
            is_over: false,
            is_designated: false,
            is_filled: false,
            length: 0,
            behind,
        }
    }

    /// While its part with this number is being filled.
    pub fn at_part(self, number: u64) -> Level
        ensures level { (table : TypeTable) (paths : List (List ℕ)) (read : ItemList → Items) → level_seen table paths read result ≡ meaning.at_part number (level_seen table paths read self) }
        ensures known { (table : TypeTable) (paths : List (List ℕ)) → IsKnownLevel table paths self → IsKnownLevel table paths result }
    {
        Level {
            number,
            is_designated: false,
            ..self
        }
    }

    /// The same, where a designator led there.
    pub fn designated_part(self, number: u64) -> Level
        ensures level { (table : TypeTable) (paths : List (List ℕ)) (read : ItemList → Items) → level_seen table paths read result ≡ meaning.designated_part number (level_seen table paths read self) }
        ensures known { (table : TypeTable) (paths : List (List ℕ)) → IsKnownLevel table paths self → IsKnownLevel table paths result }
    {
        Level {
            number,
            is_designated: true,
            ..self
        }
    }

    /// None of its parts takes the next item.
    pub fn ended(self) -> Level
        ensures level { (table : TypeTable) (paths : List (List ℕ)) (read : ItemList → Items) → level_seen table paths read result ≡ meaning.ended (level_seen table paths read self) }
        ensures known { (table : TypeTable) (paths : List (List ℕ)) → IsKnownLevel table paths self → IsKnownLevel table paths result }
    {
        Level {
            is_over: true,
            ..self
        }
    }

    /// It is for items in braces.
    pub fn has_braces(&self) -> bool
        ensures { result ≡ is_some self.now.behind }
    {
        self.behind.is_some()
    }

    // An element that takes no item ends its array, unless a designator led to it.
    fn goes_on_behind(&self, is_filled: bool) -> bool
        ensures { result ≡ goes_on_kept self.now is_filled }
    {
        self.is_designated || is_filled || !self.parts.are_elements()
    }

    /// Behind its part that was being filled, which took an item or didn't. An array with more than 2^64 elements is want of memory.
    #[tactic(auto, using(crate::proofs::LevelLemmas::behind_seen))]
    pub fn behind_part(self, is_filled: bool) -> Result<Level, AllocError>
        ensures level { (table : TypeTable) (paths : List (List ℕ)) (read : ItemList → Items) → IsKnownLevel table paths self → IfOk result (λ level. level_seen table paths read level ≡ meaning.behind_part (level_seen table paths read self) is_filled) }
        ensures known { (table : TypeTable) (paths : List (List ℕ)) → IsKnownLevel table paths self → IfOk result (IsKnownLevel table paths) }
    {
        let Some(next) = self.number.checked_add(1) else {
            return Err(AllocError);
        };
        let is_over = !self.goes_on_behind(is_filled);
        Ok(Level {
            number: next,
            is_over,
            is_designated: false,
            is_filled: self.is_filled || is_filled,
            length: length_with(self.length, next, is_filled),
            ..self
        })
    }
}
