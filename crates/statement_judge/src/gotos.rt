// The `goto`s of a unit that were read so far (C11 6.8.6.1), each with the one before it in its function: those of one function are
// gone over in a step for each, the last one first. Labels aren't known here.
ghost use Rattle.std.specs.Prelude.{◌≡◌, ◌<◌, ◌++◌, ◌∷◌, [], List, None, OnErr, OnOk, Some, ℕ, length, slice_get, if◌then◌else◌};
ghost use Rattle.indexmap.specs.IndexMap.{get};
ghost use Rattle.statement_judge.specs.Gotos.{same_owner};

use c_tree::Handle;
use indexmap::IndexMap;
use sparse_model::NameId;
use std::alloc::{AllocError, Global};

/// A `goto` as it is kept.
#[derive(Clone, Copy)]
pub struct KeptGoto {
    /// Its node.
    pub handle: Handle,
    pub token: u32,
    /// The name of the label to which it leads.
    pub name: NameId,
    /// The number of the one before it in its function.
    pub before: Option<u32>,
}

/// How many may be kept. A unit has fewer nodes.
const MAX_GOTOS: usize = 1 << 30;

// This one is the last one of its function.
fn keep_last(last: &mut IndexMap<Handle, u32>, owner: Handle, number: u32) -> Result<(), AllocError>
    ensures kept { OnOk result ((other : ℕ) → get same_owner last.new other ≡ (if same_owner owner other then Some number else get same_owner last.old other)) }
    ensures err { OnErr result (last.new.entries ≡ last.old.entries) }
{
    last.insert(owner, number)?;
    Ok(())
}

/// The `goto`s of the functions of a unit that were read so far. What they belong to is known by its handle.
#[derive(Drop)]
pub struct Gotos {
    gotos: Vec<KeptGoto>,
    // The number of the last one of each function.
    last: IndexMap<Handle, u32>,
}

impl Gotos {
    ghost use Rattle.meaning_statements.specs.Jumps.{SeenGoto};
    ghost use Rattle.statement_judge.specs.Gotos.{IsChain, StandsForGotos, goto_seen};

    /// None, in no memory.
    pub fn new(alloc: Global) -> Gotos
        ensures { (around : ℕ → List ℕ) → StandsForGotos around result [] }
    {
        Gotos {
            gotos: Vec::new(alloc),
            last: IndexMap::new(alloc),
        }
    }

    /// Takes in a `goto` of this function.
    pub fn add(
        &mut self,
        owner: Handle,
        handle: Handle,
        token: u32,
        name: NameId,
    ) -> Result<(), AllocError>
        ensures { OnOk result ((around : ℕ → List ℕ) (gotos : List SeenGoto) → StandsForGotos around self.old gotos → StandsForGotos around self.new (goto_seen around owner handle token name ∷ gotos)) }
    {
        let number = self.gotos.len();
        if number >= MAX_GOTOS {
            return Err(AllocError);
        }
        let before = self.last.get(&owner).copied();
        self.gotos.push(KeptGoto {
            handle,
            token,
            name,
            before,
        })?;
        keep_last(&mut self.last, owner, number as u32)?;
        Ok(())
    }

    /// The number of the last one of this function.
    pub fn last_of(&self, owner: Handle) -> Option<u32>
        ensures { (around : ℕ → List ℕ) (gotos : List SeenGoto) → StandsForGotos around self.now gotos → IsChain around self.now.gotos.items owner result gotos }
    {
        self.last.get(&owner).copied()
    }

    /// That with this number.
    pub fn at(&self, number: u32) -> KeptGoto
        requires { number < length self.now.gotos.items }
        ensures { slice_get self.now.gotos.items number ≡ Some result }
    {
        self.gotos[number as usize]
    }
}
