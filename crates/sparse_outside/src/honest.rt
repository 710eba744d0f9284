// Files over memory that never fail.
ghost use Rattle.std.specs.Prelude.{◌≡◌, [], Some, OnOk, OnErr};
ghost use Rattle.std.specs.FinMap as map;

use crate::files::{Files, Load};
use crate::log::Log;
use crate::trace::{EndedLoad, LoadTrace};
use std::alloc::{AllocError, Global};
use std::marker::Model;

/// Files over memory of which no load fails.
#[derive(Drop)]
pub struct HonestFiles {
    log: Log,
    trace: LoadTrace,
}

impl Model for HonestFiles {
    ghost use Rattle.sparse_outside.specs.HonestFiles.{HonestState, honest_state_code};

    ghost Value = { HonestState };

    ghost coded = { honest_state_code };

    ghost view = { λ files. record { files = files.log; trace = files.trace.loads } };
}

impl HonestFiles {
    /// No files.
    pub fn new(alloc: Global) -> Self
        ensures { result ≡ record { files = map.empty; trace = [] } }
    {
        HonestFiles {
            log: Log::new(alloc),
            trace: LoadTrace::new(),
        }
    }

    /// Adds a file, or gives the one with this path new bytes.
    pub fn add(&mut self, path: &[u8], bytes: &[u8]) -> Result<(), AllocError>
        ensures ok { OnOk result
            (self.new ≡ record self.old { files = map.insert self.old.files path.now bytes.now }) }
        ensures err { OnErr result (self.new ≡ self.old) }
    {
        self.log.add(path, bytes)
    }
}

impl Files for HonestFiles {
    ghost holds = { λ files. Some files.files };

    ghost loads = { λ files. files.trace };

    ghost faults = { λ _. 0 };

    fn load(&mut self, path: &[u8], max: usize, into: &mut Vec<u8>) -> Load {
        let answer = self.log.load(path, max, into);
        self.trace = self.trace.then(&EndedLoad {
            path,
            max,
            answer,
            into: into.as_slice(),
        });
        answer
    }
}
