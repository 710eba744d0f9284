// What can be wrong with a line, and where.
ghost use Rattle.std.specs.Prelude.{◌≡◌, length};
ghost use Rattle.flows.specs.Reading.{fault_at};
ghost use Rattle.flows.specs.Shown.{wrong_text};

/// What is wrong with a line.
#[derive(Clone, Copy)]
pub enum Wrong {
    NoStep,
    NoNumber,
    LargeNumber,
    NoOpening,
    NoComma,
    NoClosing,
    NoEnd,
    NoCounts,
    NoPointFirst,
    NoSuchBlock,
    LargeSum,
}

impl Wrong {
    /// What is written of it.
    pub(crate) fn text(self) -> &'static [u8]
        ensures { result.now ≡ wrong_text self }
    {
        match self {
            Wrong::NoStep => b"a step or `-` is expected".as_slice(),
            Wrong::NoNumber => b"a number is expected".as_slice(),
            Wrong::LargeNumber => b"the number is too large".as_slice(),
            Wrong::NoOpening => b"`(` is expected".as_slice(),
            Wrong::NoComma => b"`,` is expected".as_slice(),
            Wrong::NoClosing => b"`)` is expected".as_slice(),
            Wrong::NoEnd => b"the end of the line is expected".as_slice(),
            Wrong::NoCounts => b"`>`, `|` or `;` is expected".as_slice(),
            Wrong::NoPointFirst => b"the block has steps and doesn't begin with a point".as_slice(),
            Wrong::NoSuchBlock => b"the block has a successor that is no block".as_slice(),
            Wrong::LargeSum => b"the numbers sum up to 2^63 or more".as_slice(),
        }
    }
}

/// What is wrong, and how many bytes of the line stand there and behind.
#[derive(Clone, Copy)]
pub(crate) struct Fault {
    pub(crate) left: usize,
    pub(crate) wrong: Wrong,
}

/// What is wrong at the front of a text.
pub(crate) fn fault_at(text: &[u8], wrong: Wrong) -> Fault
    ensures left { result.left ≡ length text.now }
    ensures wrong { result.wrong ≡ wrong }
    ensures whole { result ≡ fault_at wrong (length text.now) }
{
    Fault {
        left: text.len(),
        wrong,
    }
}

/// What is wrong with a text, by line and column, both counted from 1.
#[derive(Clone, Copy)]
pub struct Place {
    pub line: usize,
    pub column: usize,
    pub wrong: Wrong,
}
