// Files that tell no map, as those of the system, but what each load gave.
ghost use Rattle.std.specs.Prelude.{◌≡◌, ◌++◌, [], false, None};

use crate::run::{ROOM, Ran, assert_ran, list};
use ksparse::{Exit, ksparse};
use sparse_outside::{Files, HonestFiles, Load, MemorySink, load_leaves_buffer};
use std::alloc::{AllocError, Global};
use std::test::Fail;

/// Files that hold something up to their first load and something else from then on.
#[derive(Drop)]
struct ChangingFiles {
    first: HonestFiles,
    later: HonestFiles,
    is_asked: bool,
    ghost order: { is_asked ≡ false → later.trace ≡ [] },
}

impl ChangingFiles {
    // The file `t.c` with this text, and with that one from the second load on.
    fn new(alloc: Global, first: &str, later: &str) -> Result<Self, AllocError> {
        let mut first_files = HonestFiles::new(alloc);
        first_files.add(b"t.c", first.as_bytes())?;
        let mut later_files = HonestFiles::new(alloc);
        later_files.add(b"t.c", later.as_bytes())?;
        Ok(ChangingFiles {
            first: first_files,
            later: later_files,
            is_asked: false,
        })
    }
}

impl Files for ChangingFiles {
    ghost holds = { λ _. None };

    ghost loads = { λ files. files.first.trace ++ files.later.trace };

    ghost faults = { λ _. 0 };

    fn load(&mut self, path: &[u8], max: usize, into: &mut Vec<u8>) -> Load {
        load_leaves_buffer();
        if self.is_asked {
            return self.later.load(path, max, into);
        }
        self.is_asked = true;
        self.first.load(path, max, into)
    }
}

// What a check of `t.c` leaves over these files.
fn check(alloc: Global, files: &mut ChangingFiles) -> Result<Ran, AllocError> {
    let words = list(alloc, &["t.c"])?;
    let mut out = MemorySink::new(alloc, ROOM)?;
    let mut err = MemorySink::new(alloc, ROOM)?;
    let exit = ksparse(alloc, &words, files, &mut out, &mut err);
    Ok(Ran { exit, out, err })
}

const FLAGGED: &str =
    "extern int __attribute__((noderef)) x; extern int y; void f(void) { y = x; }";

const WARNING: &str = "t.c:1:73: warning: dereference of noderef expression\n";

#[test]
fn a_check_is_said_of_what_its_loads_gave(rt: HostRuntime) -> Result<(), Fail> {
    let mut steady = ChangingFiles::new(rt.alloc(), FLAGGED, FLAGGED)?;
    let ran = check(rt.alloc(), &mut steady)?;
    assert_ran(&rt, "steady", &ran, Exit::Warned, WARNING.as_bytes());
    let mut changing = ChangingFiles::new(rt.alloc(), FLAGGED, "")?;
    let ran = check(rt.alloc(), &mut changing)?;
    assert_ran(&rt, "changing", &ran, Exit::Warned, WARNING.as_bytes());
    let ran = check(rt.alloc(), &mut changing)?;
    assert_ran(&rt, "changed", &ran, Exit::Clean, b"");
    Ok(())
}
