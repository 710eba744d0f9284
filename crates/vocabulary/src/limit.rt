// Limits by name alone. Their numbers stand where the counting is done.
ghost use Rattle.std.specs.Prelude.{◌≡◌};
ghost use Rattle.vocabulary.specs.Limits.{limit_name};

/// A quantity that is counted against a number.
#[derive(Clone, Copy, Debug, PartialEq, Eq)]
pub enum LimitKind {
    FileSize,
    AllFiles,
    IncludeDepth,
    MacroReplacements,
    MacroTokens,
    UnitTokens,
    ParseStack,
    Nodes,
    Parameters,
    ContextStep,
    ObjectSize,
    Steps,
    Cells,
}

impl LimitKind {
    /// The name that the limit's line shows.
    pub fn name(self) -> &'static [u8]
        ensures { result.now ≡ limit_name self }
    {
        match self {
            LimitKind::FileSize => b"file size",
            LimitKind::AllFiles => b"all files",
            LimitKind::IncludeDepth => b"include depth",
            LimitKind::MacroReplacements => b"macro replacements",
            LimitKind::MacroTokens => b"macro tokens",
            LimitKind::UnitTokens => b"unit tokens",
            LimitKind::ParseStack => b"parse stack",
            LimitKind::Nodes => b"nodes",
            LimitKind::Parameters => b"parameters",
            LimitKind::ContextStep => b"context step",
            LimitKind::ObjectSize => b"object size",
            LimitKind::Steps => b"steps",
            LimitKind::Cells => b"cells",
        }
    }
}
