// Lines that are shown, as what is written. Of what they are lines isn't known here.
ghost use Rattle.std.specs.Prelude.{◌≡◌};
ghost use Rattle.ksparse.specs.Written.{reply_seen};
ghost use Rattle.unit_commands.specs.Replies.{shown_reply};

use ksparse::{Exit, Written};
use std::alloc::Global;

/// Lines for standard output.
pub(crate) fn shown(alloc: Global, out: Vec<u8>) -> Written
    ensures { reply_seen result ≡ shown_reply out.items }
{
    Written {
        out,
        err: Vec::new(alloc),
        exit: Exit::Clean,
    }
}
