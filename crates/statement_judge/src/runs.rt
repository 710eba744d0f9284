// The runs of a unit: the nodes that stand in a node, with itself, are those from the first one of them to itself. What nodes are isn't
// known here.
ghost use Rattle.std.specs.Prelude.{◌≡◌, ◌<◌, IfOk, length};
ghost use Rattle.node_surroundings.specs.Seen.{surroundings_seen};
ghost use Rattle.statement_judge.specs.Runs.{AreAlone, AreFirsts, first_told, is_in_run};

use c_tree::Handle;
use node_surroundings::Surroundings;
use std::alloc::{AllocError, Global};
use std::marker::Model;

/// The first node that stands in each node of a unit, by its handle.
#[derive(Drop)]
pub struct Runs {
    firsts: Vec<Handle>,
}

impl Model for Runs {
    ghost use Rattle.std.specs.Prelude.{List, ℕ};

    ghost Value = { List ℕ };

    ghost view = { λ runs. runs.firsts.items };
}

// A node tells the one that it stands in which is the first of its own.
fn tell(firsts: &mut Vec<Handle>, handle: Handle, parent: Handle)
    requires { handle < length firsts.old.items }
    ensures { firsts.new.items ≡ first_told firsts.old.items handle parent }
{
    if handle < parent && (parent as usize) < firsts.len() {
        let first = firsts[handle as usize];
        if first < firsts[parent as usize] {
            firsts[parent as usize] = first;
        }
    }
}

// Each node stands in itself.
fn alone(alloc: Global, count: u32) -> Result<Vec<Handle>, AllocError>
    ensures { IfOk result (λ firsts. AreAlone count firsts.items) }
{
    let mut firsts = Vec::new(alloc);
    for handle in 0..count {
        firsts.push(handle)?;
    }
    Ok(firsts)
}

/// The runs of a unit of so many nodes. A node costs a few steps.
///
/// # Errors
/// Want of memory.
pub fn runs_of(alloc: Global, count: u32, surroundings: &Surroundings) -> Result<Runs, AllocError>
    requires { length surroundings.now ≡ count }
    ensures { IfOk result (AreFirsts (surroundings_seen surroundings.now)) }
{
    let mut firsts = alone(alloc, count)?;
    for handle in 0..count {
        tell(&mut firsts, handle, surroundings.get(handle).parent);
    }
    Ok(Runs { firsts })
}

impl Runs {
    /// Whether a node stands in the run of another one, before it.
    pub fn stands_in(&self, root: Handle, part: Handle) -> bool
        ensures { result ≡ is_in_run self.now root part }
    {
        let index = root as usize;
        index < self.firsts.len() && self.firsts[index] <= part && part < root
    }
}
