// What a spelling is to the grammar: a class, or an error. The spelling itself isn't known here.
ghost use Rattle.std.specs.Prelude.{◌≡◌};
ghost use Rattle.meaning_grammar.specs.Words.{read_as, refused_as};
ghost use Rattle.c_terminals.specs.Seen.{reading_seen};

use vocabulary::{ErrorKind, TokenClass};

/// The class of a spelling, and the error that it is where it isn't supported.
#[derive(Clone, Copy, Debug, PartialEq, Eq)]
pub struct Reading {
    pub class: TokenClass,
    pub refusal: Option<ErrorKind>,
}

/// A spelling of this class.
pub(crate) fn of_class(class: TokenClass) -> Reading
    ensures { reading_seen result ≡ read_as class }
{
    Reading {
        class,
        refusal: None,
    }
}

/// A spelling that isn't supported.
pub(crate) fn refused(error: ErrorKind) -> Reading
    ensures { reading_seen result ≡ refused_as error }
{
    Reading {
        class: TokenClass::OtherToken,
        refusal: Some(error),
    }
}
