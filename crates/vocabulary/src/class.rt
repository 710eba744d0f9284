// The groups by which warnings are chosen. Which rule stands in which is said beside the rules.
ghost use Rattle.std.specs.Prelude.{◌≡◌};
ghost use Rattle.vocabulary.specs.Rules.{is_on_by_default};

/// A class of warnings, which the words of the command switch on and off.
#[derive(Clone, Copy, Debug, PartialEq, Eq)]
pub enum Class {
    AddressSpace,
    Bitwise,
    Context,
    NonPointerNull,
    CastToAs,
    Decl,
    Shadow,
    Undef,
    ReturnVoid,
    DoWhile,
    StrictPrototypes,
    OneBitSignedBitfield,
    CastTruncate,
}

impl Class {
    /// Whether the class is on where no word switches it.
    pub fn is_on_by_default(self) -> bool
        ensures { result ≡ is_on_by_default self }
    {
        match self {
            Class::AddressSpace => true,
            Class::Bitwise => true,
            Class::Context => true,
            Class::NonPointerNull => true,
            _ => false,
        }
    }
}
