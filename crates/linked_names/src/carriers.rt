// The few declarations of a name that tell which is the first with other contexts than these.
//
// Two contexts differ where both have sums and one of these differs. So two are enough: the first declaration with contexts, and
// the first with others than that one.
ghost use Rattle.std.specs.Prelude.{◌≡◌};
ghost use Rattle.linked_names.specs.Contexts.{carriers_with, no_carriers, other_carrier};

use crate::placed::Placed;
use crate::sums::{ContextSums, are_other_sums};

/// A declaration with contexts.
#[derive(Clone, Copy)]
pub(crate) struct Carrier {
    pub placed: Placed,
    pub sums: ContextSums,
}

/// The first declarations with contexts, of each kind that matters.
#[derive(Clone, Copy)]
pub(crate) struct Carriers {
    /// The first of all.
    pub first: Option<Carrier>,
    /// The first with other sums than that one.
    pub second: Option<Placed>,
}

impl Carriers {
    /// None.
    pub(crate) fn new() -> Carriers
        ensures { result ≡ no_carriers }
    {
        Carriers {
            first: None,
            second: None,
        }
    }

    /// The first with other sums than these.
    pub(crate) fn first_other(self, sums: Option<ContextSums>) -> Option<Placed>
        ensures { result ≡ other_carrier self sums }
    {
        match (self.first, sums) {
            (Some(first), Some(these)) => {
                if are_other_sums(first.sums, these) {
                    Some(first.placed)
                } else {
                    self.second
                }
            }
            _ => None,
        }
    }

    /// The carriers, once a declaration has joined that may have contexts.
    pub(crate) fn with(self, next: Placed, sums: Option<ContextSums>) -> Carriers
        ensures { result ≡ carriers_with self next sums }
    {
        let Some(these) = sums else {
            return self;
        };
        let Some(first) = self.first else {
            return Carriers {
                first: Some(Carrier {
                    placed: next,
                    sums: these,
                }),
                second: self.second,
            };
        };
        if self.second.is_some() || !are_other_sums(these, first.sums) {
            return self;
        }
        Carriers {
            first: self.first,
            second: Some(next),
        }
    }
}
