//! The words that directives put into macros and lines, by their ids.
ghost use Rattle.std.specs.Prelude.{IfOk};
ghost use Rattle.c_tokens.specs.Seen.{Extends};
ghost use Rattle.c_directives.specs.Made.{AreMadeWords};

use c_tokens::Names;
use sparse_model::NameId;
use std::alloc::AllocError;

/// Their ids in a table of names.
#[derive(Clone, Copy, Debug, PartialEq, Eq)]
pub struct MadeWords {
    /// `__VA_ARGS__`, the name of the parameter `...` (C11 6.10.3 p5).
    pub rest: NameId,
    /// `0` and `1`, which answer `defined` (6.10.1 p1).
    pub zero: NameId,
    pub one: NameId,
}

impl MadeWords {
    /// Their ids, which the table has from then on.
    pub fn new(names: &mut Names) -> Result<MadeWords, AllocError>
        ensures made { IfOk result (AreMadeWords names.new) }
        ensures keeps { Extends names.old names.new }
    {
        let rest = names.intern(b"__VA_ARGS__")?;
        let zero = names.intern(b"0")?;
        let one = names.intern(b"1")?;
        Ok(MadeWords { rest, zero, one })
    }
}
