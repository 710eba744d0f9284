// What is noted of an object or a function.
ghost use Rattle.std.specs.Prelude.{◌≡◌};
ghost use Rattle.judged_objects.specs.Notes as noted;

use control_flow::ContextNote;

/// What the declarations of an object or a function come to.
#[derive(Clone, Copy, Debug, PartialEq, Eq)]
pub struct ObjectNote {
    /// The counts with which a function is entered and left, where a declaration carries contexts: their sums, over those of the
    /// first one that does.
    pub contexts: Option<ContextNote>,
    /// Some declaration says that it doesn't return (C11 6.7.4 p8).
    pub is_noreturn: bool,
}

impl ObjectNote {
    /// Nothing is said.
    pub(crate) fn none() -> ObjectNote
        ensures { result ≡ noted.no_note }
    {
        ObjectNote {
            contexts: None,
            is_noreturn: false,
        }
    }

    /// Whether anything is.
    pub(crate) fn says_something(self) -> bool
        ensures { result ≡ noted.says_something self }
    {
        self.contexts.is_some() || self.is_noreturn
    }

    /// What this declaration and a later one come to.
    pub(crate) fn and(self, later: ObjectNote) -> ObjectNote
        ensures { result ≡ noted.note_and self later }
    {
        ObjectNote {
            contexts: self.contexts.or(later.contexts),
            is_noreturn: self.is_noreturn || later.is_noreturn,
        }
    }
}
