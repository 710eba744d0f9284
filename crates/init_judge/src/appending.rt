// Failures that are appended all or not at all.
ghost use Rattle.std.specs.Prelude.{◌≡◌, ◌++◌, OnErr, OnOk, length, take};

use sparse_model::FailureList;
use std::alloc::AllocError;

// Appends all of these, or some where there is want of memory.
fn push_all(found: &mut FailureList, failures: &FailureList) -> Result<(), AllocError>
    ensures ok { OnOk result (found.new ≡ found.old ++ failures.now) }
    ensures before { take (length found.old) found.new ≡ found.old }
{
    for failure in failures.as_slice() {
        if let Err((fault, _)) = found.push(*failure) {
            return Err(fault);
        }
    }
    Ok(())
}

/// Appends all of these, or none where there is want of memory.
pub fn append_all(found: &mut FailureList, failures: &FailureList) -> Result<(), AllocError>
    ensures ok { OnOk result (found.new ≡ found.old ++ failures.now) }
    ensures err { OnErr result (found.new ≡ found.old) }
{
    let before = found.len();
    let pushed = push_all(found, failures);
    if pushed.is_err() {
        found.truncate(before);
    }
    pushed
}
