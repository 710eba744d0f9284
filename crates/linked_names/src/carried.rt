// What is kept of all declarations of a name with linkage and of their contexts.
ghost use Rattle.std.specs.Prelude.{◌≡◌, ◌∷◌, ◌++◌, List, [], IfNone, IfOk, IfSome, OnErr, OnOk, None, option_map};
ghost use Rattle.meaning_typing.specs.ContextSums.{LinkedDeclaration};
ghost use Rattle.c_types.specs.Layouts.{told_in};
ghost use Rattle.c_types.specs.Table.{Extends, IsTypeId, TellsNoMore, type_at};
ghost use Rattle.linked_names.specs.Contexts.{AreCarriedIds, AreCarriedKept, IsCarried, count_of, declaration_of, differing_placed};

use crate::carriers::Carriers;
use crate::declarations::Declarations;
use crate::placed::{Placed, earlier};
use crate::sums::ContextSums;
use c_types::Types;
use sparse_model::TypeId;
use std::alloc::AllocError;

/// The declarations of a name, with their contexts.
#[derive(Clone, Copy)]
pub(crate) struct Carried {
    pub declarations: Declarations,
    pub carriers: Carriers,
}

impl Carried {
    /// How many stand before the first that differs from a declaration of this type with these contexts.
    pub(crate) fn first_differing(
        self,
        types: &Types,
        of: TypeId,
        contexts: Option<ContextSums>,
    ) -> Option<u32>
        requires ids { AreCarriedIds types.now self }
        requires known { IsTypeId types.now of }
        ensures { result ≡ option_map (λ placed. placed.place) (differing_placed types.now self of contexts) }
    {
        let unlike = self.declarations.witnesses.placed_unlike(types, of);
        let found = earlier(unlike, self.carriers.first_other(contexts))?;
        Some(found.place)
    }

    /// How many declarations are kept of a name.
    pub(crate) fn count(found: Option<Carried>) -> u32
        ensures { result ≡ count_of found }
    {
        match found {
            Some(carried) => carried.declarations.witnesses.count,
            None => 0,
        }
    }

    // The first declaration of a name.
    fn first(
        types: &mut Types,
        of: TypeId,
        contexts: Option<ContextSums>,
    ) -> Result<Carried, AllocError>
        requires { IsTypeId types.old of }
        ensures kept { IfOk result (IsCarried types.new (declaration_of types.new of contexts ∷ [])) }
        ensures ids { IfOk result (AreCarriedIds types.new) }
        ensures same { types.new ≡ types.old }
    {
        let declarations = Declarations::joined(None, types, of)?;
        let next = Placed { place: 0, of };
        let carriers = Carriers::new().with(next, contexts);
        Ok(Carried {
            declarations,
            carriers,
        })
    }

    // These declarations and one more.
    fn with(
        self,
        types: &mut Types,
        of: TypeId,
        contexts: Option<ContextSums>,
    ) -> Result<Carried, AllocError>
        requires ids { AreCarriedIds types.old self }
        requires known { IsTypeId types.old of }
        ensures kept { IfOk result (λ more. (list : List LinkedDeclaration) → IsCarried types.old list self → IsCarried types.new (list ++ declaration_of types.new of contexts ∷ []) more) }
        ensures ids { IfOk result (AreCarriedIds types.new) }
        ensures keeps { OnOk result (Extends types.old types.new) }
        ensures tells { OnOk result (TellsNoMore types.old types.new) }
        ensures layouts { OnOk result (told_in types.new ≡ told_in types.old) }
        ensures err { OnErr result (types.new ≡ types.old) }
    {
        let place = self.declarations.witnesses.count;
        let declarations = Declarations::joined(Some(self.declarations), types, of)?;
        let next = Placed { place, of };
        let carriers = self.carriers.with(next, contexts);
        Ok(Carried {
            declarations,
            carriers,
        })
    }

    /// What is kept of a name, if anything is, and one declaration more.
    pub(crate) fn joined(
        found: Option<Carried>,
        types: &mut Types,
        of: TypeId,
        contexts: Option<ContextSums>,
    ) -> Result<Carried, AllocError>
        requires ids { IfSome found (AreCarriedIds types.old) }
        requires known { IsTypeId types.old of }
        ensures kept { IfOk result (λ more. (list : List LinkedDeclaration) → AreCarriedKept types.old list found → IsCarried types.new (list ++ declaration_of types.new of contexts ∷ []) more) }
        ensures ids { IfOk result (AreCarriedIds types.new) }
        ensures keeps { OnOk result (Extends types.old types.new) }
        ensures tells { OnOk result (TellsNoMore types.old types.new) }
        ensures layouts { OnOk result (told_in types.new ≡ told_in types.old) }
        ensures none { IfNone found (types.new ≡ types.old) }
        ensures err { OnErr result (types.new ≡ types.old) }
    {
        match found {
            None => Carried::first(types, of, contexts),
            Some(earlier) => earlier.with(types, of, contexts),
        }
    }
}
