// The files that were added, which both kinds of files over memory look up.
ghost use Rattle.std.specs.Prelude.{◌≡◌, ◌≢◌, [], OnOk, OnErr};
ghost use Rattle.std.specs.FinMap as map;
ghost use Rattle.std.specs.Option.{option_copied};
ghost use Rattle.meaning_outside.specs.Files.{file_at};
ghost use Rattle.sparse_outside.specs.Load.{LoadGives};

use crate::files::Load;
use std::alloc::{AllocError, Global};
use std::collections::VecDeque;
use std::marker::Model;

/// A file as it was added.
#[derive(Drop)]
pub(crate) struct File {
    path: Vec<u8>,
    bytes: Vec<u8>,
}

/// A log of added files, the newest first, seen as the map from each path to its newest bytes.
#[derive(Drop)]
pub(crate) struct Log {
    added: VecDeque<File>,
}

impl Model for Log {
    ghost use Rattle.meaning_outside.specs.Files.{FileMap};
    ghost use Rattle.sparse_outside.specs.Log.{file_map, file_map_code};

    ghost Value = { FileMap };

    ghost coded = { file_map_code };

    ghost view = { λ log. file_map log.added.items };
}

impl Log {
    /// No files.
    pub(crate) fn new(alloc: Global) -> Self
        ensures { result ≡ map.empty }
    {
        Log {
            added: VecDeque::new(alloc),
        }
    }

    /// Adds a file, or gives the one with this path new bytes.
    pub(crate) fn add(&mut self, path: &[u8], bytes: &[u8]) -> Result<(), AllocError>
        ensures ok { OnOk result (self.new ≡ map.insert self.old path.now bytes.now) }
        ensures err { OnErr result (self.new ≡ self.old) }
    {
        let alloc = *self.added.allocator();
        let path = Vec::from_slice(alloc, path)?;
        let bytes = Vec::from_slice(alloc, bytes)?;
        self.added.push_front(File { path, bytes })?;
        Ok(())
    }

    // Reads the log from its newest file, so the time grows with the log.
    fn find(&self, path: &[u8]) -> Option<&[u8]>
        ensures { option_copied result ≡ file_at self.now path.now }
    {
        for file in &self.added {
            if path == file.path.as_slice() {
                return Some(file.bytes.as_slice());
            }
        }
        None
    }

    /// Loads the newest bytes that were added with this path.
    pub(crate) fn load(&self, path: &[u8], max: usize, into: &mut Vec<u8>) -> Load
        requires { into.old.items ≡ [] }
        ensures answer { LoadGives (file_at self.now path.now) max result into.new.items }
        ensures no_fault { result ≢ Load.Failed }
    {
        let Some(bytes) = self.find(path) else {
            return Load::Missing;
        };
        if bytes.len() > max {
            return Load::TooLong;
        }
        match into.extend_from_slice(bytes) {
            Ok(()) => Load::Whole,
            Err(_) => Load::NoMemory,
        }
    }
}
