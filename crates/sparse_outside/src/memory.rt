// Files over memory of which chosen loads fail.
ghost use Rattle.std.specs.Prelude.{◌≡◌, ◌↔◌, ◌+◌, ◌-◌, ◌^◌, ◌<◌, ◌≤◌, [], ◌∷◌, ◌++◌, IsTrue, Some, OnOk, OnErr, min};
ghost use Rattle.std.specs.List.{Contains};
ghost use Rattle.std.specs.FinMap as map;
ghost use Rattle.meaning_outside.specs.Faults.{Told};
ghost use Rattle.meaning_outside.specs.Files.{file_at};
ghost use Rattle.sparse_outside.specs.Load.{LoadGives, loaded};

use crate::files::{Files, Load};
use crate::log::Log;
use crate::trace::{EndedLoad, LoadTrace};
use std::alloc::{AllocError, Global};
use std::marker::Model;

/// Files over memory of which the loads with told numbers fail.
#[derive(Drop)]
pub struct MemoryFiles {
    log: Log,
    failing: Vec<u32>,
    loads: u64,
    faults: u64,
    trace: LoadTrace,
}

impl Model for MemoryFiles {
    ghost use Rattle.std.specs.Prelude.{◌≤◌};
    ghost use Rattle.sparse_outside.specs.MemoryFiles.{MemoryState, memory_state_code};

    ghost Value = { MemoryState };

    ghost coded = { memory_state_code };

    ghost view = { λ files. record {
      files = files.log;
      failing = files.failing.items;
      loads = files.loads;
      faults = files.faults;
      trace = files.trace.loads;
    } };

    ghost invariant = { λ files. files.faults ≤ files.loads };
}

impl MemoryFiles {
    /// No files, and no load that fails.
    pub fn new(alloc: Global) -> Self
        ensures { result ≡ record { files = map.empty; failing = []; loads = 0; faults = 0; trace = [] } }
    {
        MemoryFiles {
            log: Log::new(alloc),
            failing: Vec::new(alloc),
            loads: 0,
            faults: 0,
            trace: LoadTrace::new(),
        }
    }

    /// Adds a file, or gives the one with this path new bytes.
    pub fn add(&mut self, path: &[u8], bytes: &[u8]) -> Result<(), AllocError>
        ensures ok { OnOk result
            (self.new ≡ record self.old { files = map.insert self.old.files path.now bytes.now }) }
        ensures err { OnErr result (self.new ≡ self.old) }
    {
        self.log.add(path, bytes)
    }

    /// Tells that load number `k` fails, counted from 1 over all loads.
    pub fn fail_call(&mut self, k: u32) -> Result<(), AllocError>
        ensures ok { OnOk result
            (self.new ≡ record self.old { failing = self.old.failing ++ k ∷ [] }) }
        ensures err { OnErr result (self.new ≡ self.old) }
    {
        self.failing.push(k)?;
        Ok(())
    }
}

// Whether the load after so many earlier ones fails.
fn fails(failing: &[u32], earlier: u64) -> bool
    ensures told { IsTrue result ↔ Contains failing.now (earlier + 1) }
    ensures small { IsTrue result → earlier + 1 < 2 ^ 32 }
{
    failing
        .iter()
        .any(|number| *number > 0 && u64::from(*number) - 1 == earlier)
}

impl Files for MemoryFiles {
    ghost holds = { λ files. Some files.files };

    ghost loads = { λ files. files.trace };

    ghost faults = { λ files. files.faults };

    fn load(&mut self, path: &[u8], max: usize, into: &mut Vec<u8>) -> Load
        requires { into.old.items ≡ [] }
        ensures answer { LoadGives (file_at self.old.files path.now) max result into.new.items }
        ensures trace { self.new.trace ≡ self.old.trace ++ loaded path.now max result into.new.items ∷ [] }
        ensures keeps { self.new.files ≡ self.old.files }
        ensures cause { Told self.old.faults self.new.faults (result ≡ Load.Failed) }
        ensures once { self.new.faults ≤ self.old.faults + 1 }

        // Exactly the loads with told numbers fail, and each load has the next number.
        ensures fails { (result ≡ Load.Failed) ↔ Contains self.old.failing (self.old.loads + 1) }
        ensures told { self.new.failing ≡ self.old.failing }
        ensures number { self.new.loads ≡ min (self.old.loads + 1) (2 ^ 64 - 1) }
    {
        let fails = fails(&self.failing, self.loads);
        // It may stand still at its end, since no number that can be told is so large.
        self.loads = self.loads.saturating_add(1);
        let answer = if fails {
            self.faults += 1;
            Load::Failed
        } else {
            self.log.load(path, max, into)
        };
        self.trace = self.trace.then(&EndedLoad {
            path,
            max,
            answer,
            into: into.as_slice(),
        });
        answer
    }
}
