// A reply, which stands whole in memory before any of it is written. Sinks aren't known here.
ghost use Rattle.std.specs.Prelude.{◌≡◌, ◌++◌, IfOk, length};
ghost use Rattle.meaning_answer.specs.Reply.{line};
ghost use Rattle.ksparse.specs.Ending.{ending_seen};
ghost use Rattle.ksparse.specs.Written.{reply_seen};

use crate::exit::Exit;
use std::alloc::{AllocError, Global};

/// What is to be written, and the exit behind it.
#[derive(Drop)]
pub struct Written {
    pub out: Vec<u8>,
    pub err: Vec<u8>,
    pub exit: Exit,
}

impl Written {
    /// One line for `err`, of two parts.
    pub fn line(alloc: Global, exit: Exit, front: &[u8], back: &[u8]) -> Result<Self, AllocError>
        ensures { IfOk result
            (λ written. reply_seen written ≡ line (ending_seen exit) (front.now ++ back.now)) }
    {
        let mut err = Vec::from_slice(alloc, front)?;
        err.extend_from_slice(back)?;
        err.push(b'\n')?;
        Ok(Written {
            out: Vec::new(alloc),
            err,
            exit,
        })
    }
}
