// What stands above the nodes of a unit, as it is kept: four bytes a node, and each combination once for the node that brings it.
ghost use Rattle.std.specs.Prelude.{◌≡◌, ◌<◌, IfOk, OnErr, OnOk, Some, get_or, length, replicate, slice_get, slice_set};
ghost use Rattle.statement_judge.specs.Enclosing.{nothing_above};
ghost use Rattle.statement_judge.specs.Kept.{IsLonger};

use crate::enclosing::Enclosing;
use c_tree::Handle;
use std::alloc::{AllocError, Global};
use std::marker::Model;

/// How many combinations may be kept. A unit has fewer nodes, and none of them brings more than one.
const MAX_SETTINGS: usize = 1 << 30;

// The number of a combination: this one, where it is the same, or that of a new one.
fn number_of(
    settings: &mut Vec<Enclosing>,
    outer: u32,
    enclosing: Enclosing,
) -> Result<u32, AllocError>
    requires { outer < length settings.old.items }
    ensures stands { IfOk result (λ number. slice_get settings.new.items number ≡ Some enclosing) }
    ensures grows { IsLonger settings.old.items settings.new.items }
    ensures err { OnErr result (settings.new.items ≡ settings.old.items) }
{
    if settings[outer as usize] == enclosing {
        return Ok(outer);
    }
    let count = settings.len();
    if count >= MAX_SETTINGS {
        return Err(AllocError);
    }
    settings.push(enclosing)?;
    Ok(count as u32)
}

/// What stands above each node of a unit, by its handle.
#[derive(Drop)]
pub struct Enclosings {
    // Of each node the number of what stands above it.
    numbers: Vec<u32>,
    settings: Vec<Enclosing>,
}

impl Model for Enclosings {
    ghost use Rattle.std.specs.Prelude.{List, length};
    ghost use Rattle.statement_judge.specs.declared.enclosing.Enclosing.{Enclosing};
    ghost use Rattle.statement_judge.specs.Kept.{AreWithin, settings_seen};

    ghost Value = { List Enclosing };

    ghost view = { λ kept. settings_seen kept.settings.items kept.numbers.items };

    ghost invariant = { λ kept. AreWithin (length kept.settings.items) kept.numbers.items };
}

impl Enclosings {
    /// So many nodes, above which nothing stands.
    pub(crate) fn filled(alloc: Global, count: u32) -> Result<Enclosings, AllocError>
        ensures { IfOk result (λ filled. filled ≡ replicate count nothing_above) }
    {
        let nothing = Enclosing::nothing();
        let settings = vec![in alloc; nothing; 1]?;
        let numbers = vec![in alloc; 0u32; count as usize]?;
        Ok(Enclosings { numbers, settings })
    }

    /// Says what stands above a node. Most nodes have what stands above their parents.
    pub(crate) fn set(
        &mut self,
        handle: Handle,
        parent: Handle,
        enclosing: Enclosing,
    ) -> Result<(), AllocError>
        requires { handle < length self.old }
        ensures ok { OnOk result (self.new ≡ slice_set self.old handle enclosing) }
        ensures err { OnErr result (self.new ≡ self.old) }
    {
        let near = if (parent as usize) < self.numbers.len() {
            parent
        } else {
            handle
        };
        let outer = self.numbers[near as usize];
        let number = number_of(&mut self.settings, outer, enclosing)?;
        self.numbers[handle as usize] = number;
        Ok(())
    }

    /// How many nodes there are.
    pub fn len(&self) -> usize
        ensures { result ≡ length self.now }
    {
        self.numbers.len()
    }

    /// What stands above a node: nothing, where there is none.
    pub fn at(&self, handle: Handle) -> Enclosing
        ensures { result ≡ get_or self.now handle nothing_above }
    {
        let index = handle as usize;
        if index < self.numbers.len() {
            self.settings[self.numbers[index] as usize]
        } else {
            Enclosing::nothing()
        }
    }
}
