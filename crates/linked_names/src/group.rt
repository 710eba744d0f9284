// Declarations among which types that agree are the same.
ghost use Rattle.std.specs.Prelude.{◌≡◌};
ghost use Rattle.c_types.specs.Table.{IsTypeId, type_at};
ghost use Rattle.linked_names.specs.Witnesses.{AreGroupIds, group_with, no_group, unlike_in_group};

use crate::placed::Placed;
use c_types::Types;
use sparse_model::TypeId;

/// The first of a group, and the first that isn't the same.
#[derive(Clone, Copy)]
pub(crate) struct Group {
    pub first: Option<Placed>,
    pub second: Option<Placed>,
}

impl Group {
    /// No declaration.
    pub(crate) fn new() -> Group
        ensures { result ≡ no_group }
    {
        Group {
            first: None,
            second: None,
        }
    }

    /// The first that isn't the same as this type.
    pub(crate) fn first_unlike(self, types: &Types, of: TypeId) -> Option<Placed>
        requires ids { AreGroupIds types.now self }
        requires known { IsTypeId types.now of }
        ensures { result ≡ unlike_in_group types.now self (type_at types.now of) }
    {
        let first = self.first?;
        if types.same(first.of, of) {
            self.second
        } else {
            Some(first)
        }
    }

    /// The group with one more.
    pub(crate) fn with(self, types: &Types, next: Placed) -> Group
        requires ids { AreGroupIds types.now self }
        requires known { IsTypeId types.now next.of }
        ensures { result ≡ group_with types.now self next }
    {
        let Some(first) = self.first else {
            return Group {
                first: Some(next),
                second: None,
            };
        };
        if self.second.is_some() || types.same(first.of, next.of) {
            return self;
        }
        Group {
            first: self.first,
            second: Some(next),
        }
    }
}
