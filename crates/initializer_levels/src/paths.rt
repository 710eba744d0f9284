// Where parts stand in an object: each path is that of what stands around, and a number more.
ghost use Rattle.std.specs.Prelude.{◌≡◌, ◌++◌, ◌∷◌, [], IfOk, OnErr, OnOk, length};
ghost use Rattle.c_types.specs.Table.{IsLonger, TypeTable};
ghost use Rattle.meaning_initializers.specs.Parts.{path_to};
ghost use Rattle.initializer_levels.specs.Parts.{part_seen, parts_in, parts_seen, type_seen};
ghost use Rattle.initializer_levels.specs.Paths.{IsPathIn, path_at};

use crate::parts::{Part, PartType, Parts};
use std::alloc::{AllocError, Global};
use std::marker::Model;

/// Where a part stands in an object, by its number.
#[derive(Clone, Copy, Debug, PartialEq, Eq)]
pub struct PathId(pub u32);

/// The last step to a part.
#[derive(Clone, Copy)]
pub struct PathStep {
    /// The part of which it is one; none is the object.
    pub within: Option<PathId>,
    pub number: u64,
}

/// Paths in an object, by their numbers. Its value is the list of them. Each takes 16 bytes, however long it is.
#[derive(Drop)]
pub struct Paths {
    steps: Vec<PathStep>,
}

impl Model for Paths {
    ghost use Rattle.std.specs.Prelude.{List, ℕ};
    ghost use Rattle.initializer_levels.specs.Paths.{paths_of};

    ghost Value = { List (List ℕ) };

    ghost view = { λ paths. paths_of paths.steps.items };
}

impl Paths {
    /// No paths, in no memory.
    pub fn new(alloc: Global) -> Paths
        ensures { result ≡ [] }
    {
        Paths {
            steps: Vec::new(alloc),
        }
    }

    /// Adds the path of a part of what stands at another path. More than 2^32 of them are want of memory. A refusal changes nothing.
    #[tactic(auto, using(crate::proofs::PathLemmas::paths_pushed, crate::proofs::PathLemmas::paths_many))]
    pub fn push(&mut self, within: Option<PathId>, number: u64) -> Result<PathId, AllocError>
        ensures ok { OnOk result (self.new ≡ self.old ++ (path_at self.old within ++ number ∷ []) ∷ []) }
        ensures id { IfOk result (λ id. id.0 ≡ length self.old) }
        ensures err { OnErr result (self.new ≡ self.old) }
    {
        let Ok(id) = u32::try_from(self.steps.len()) else {
            return Err(AllocError);
        };
        self.steps.push(PathStep { within, number })?;
        Ok(PathId(id))
    }
}

/// Where a part of an object stands, by what the object has for parts: a scalar in braces stands where its braces' object does. A refusal
/// changes nothing.
#[tactic(auto, using(crate::proofs::PathLemmas::own_path, crate::proofs::PathLemmas::part_path, crate::proofs::PathLemmas::last_is_path, crate::proofs::PathLemmas::no_longer))]
pub fn path_of_part(
    paths: &mut Paths,
    parts: Parts,
    within: Option<PathId>,
    part: Part,
) -> Result<Option<PathId>, AllocError>
    ensures path { (table : TypeTable) (of : PartType) → parts_seen table parts ≡ parts_in (type_seen table of) → IfOk result (λ path. path_at paths.new path ≡ path_to (type_seen table of) (path_at paths.old within) (part_seen table part)) }
    ensures known { IsPathIn paths.old within → IfOk result (IsPathIn paths.new) }
    ensures keeps { OnOk result (IsLonger paths.old paths.new) }
    ensures err { OnErr result (paths.new ≡ paths.old) }
{
    if parts.are_itself() {
        return Ok(within);
    }
    let path = paths.push(within, part.number)?;
    Ok(Some(path))
}
