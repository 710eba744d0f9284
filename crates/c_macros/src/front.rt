// Where a fault of a run is told. Why it comes isn't known here.
ghost use Rattle.std.specs.Prelude.{◌≡◌};
ghost use Rattle.c_macros.specs.Front.{front_of, told_by};
ghost use Rattle.c_macros.specs.declared.expand_fault.ExpandFault.TheVariants.{Arguments, Limit, OpenCall};

use crate::expand_fault::ExpandFault;
use crate::run::Run;
use crate::substitution::SubstitutionFault;
use sparse_model::Place;
use vocabulary::LimitKind;

/// A place, and how many tokens are put for good.
#[derive(Clone, Copy)]
pub(crate) struct Front {
    pub(crate) place: Place,
    pub(crate) before: usize,
}

impl Run {
    /// The front of the outermost waiting call. Where none waits, it is this place behind so many tokens.
    pub(crate) fn front(&self, place: Place, before: usize) -> Front
        ensures { result ≡ front_of self.now.calls.items place before }
    {
        match self.calls.first() {
            Some(call) => Front {
                place: call.name.token.place,
                before: call.first_put,
            },
            None => Front { place, before },
        }
    }

    /// A limit is passed at this place, behind so many tokens.
    pub(crate) fn passed(&self, limit: LimitKind, place: Place, before: usize) -> ExpandFault
        ensures { result ≡ Limit limit (front_of self.now.calls.items place before).before }
    {
        let front = self.front(place, before);
        ExpandFault::Limit {
            limit,
            before: front.before,
        }
    }

    /// No `)` ends a call at this place, behind so many tokens.
    pub(crate) fn unclosed(&self, place: Place, before: usize) -> ExpandFault
        ensures { result ≡ OpenCall (front_of self.now.calls.items place before).place (front_of self.now.calls.items place before).before }
    {
        let front = self.front(place, before);
        ExpandFault::OpenCall {
            place: front.place,
            before: front.before,
        }
    }

    /// A call at this place, behind so many tokens, has another number of arguments than parameters.
    pub(crate) fn mismatched(&self, place: Place, before: usize) -> ExpandFault
        ensures { result ≡ Arguments (front_of self.now.calls.items place before).place (front_of self.now.calls.items place before).before }
    {
        let front = self.front(place, before);
        ExpandFault::Arguments {
            place: front.place,
            before: front.before,
        }
    }

    /// What a substitution that fails at this place, behind so many tokens, says of the expansion.
    pub(crate) fn told(&self, fault: SubstitutionFault, place: Place, before: usize) -> ExpandFault
        ensures { result ≡ told_by fault (front_of self.now.calls.items place before) }
    {
        let front = self.front(place, before);
        match fault {
            SubstitutionFault::BadPaste => ExpandFault::BadPaste {
                place: front.place,
                before: front.before,
            },
            SubstitutionFault::TooMany => ExpandFault::Limit {
                limit: LimitKind::MacroTokens,
                before: front.before,
            },
            SubstitutionFault::Memory => ExpandFault::Memory,
        }
    }
}
