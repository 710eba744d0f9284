// What is kept of all declarations of a name with linkage.
ghost use Rattle.std.specs.Prelude.{◌≡◌, ◌∷◌, ◌++◌, List, [], IfNone, IfOk, IfSome, OnErr, OnOk, None, option_map};
ghost use Rattle.meaning_types.specs.Types.{TypeTree};
ghost use Rattle.meaning_types.specs.Composite.{composite};
ghost use Rattle.c_types.specs.Layouts.{told_in};
ghost use Rattle.c_types.specs.Table.{Extends, IsTypeId, TellsNoMore, type_at};
ghost use Rattle.linked_names.specs.Kept.{AreDeclarations, AreIds, AreKept};

use crate::witnesses::Witnesses;
use c_types::Types;
use sparse_model::TypeId;
use std::alloc::AllocError;

/// The declarations of a name.
#[derive(Clone, Copy)]
pub(crate) struct Declarations {
    /// The type of what they declare (C11 6.2.7 p3).
    pub shared: TypeId,
    /// Which of them tell what disagrees with them.
    pub witnesses: Witnesses,
}

impl Declarations {
    /// The first declaration of a name.
    fn first(types: &Types, of: TypeId) -> Result<Declarations, AllocError>
        requires { IsTypeId types.now of }
        ensures kept { IfOk result (AreDeclarations types.now (type_at types.now of ∷ [])) }
        ensures ids { IfOk result (AreIds types.now) }
    {
        let witnesses = Witnesses::new(of).with(types, of)?;
        Ok(Declarations {
            shared: of,
            witnesses,
        })
    }

    /// These declarations and one more.
    fn with(self, types: &mut Types, of: TypeId) -> Result<Declarations, AllocError>
        requires ids { AreIds types.old self }
        requires known { IsTypeId types.old of }
        ensures kept { IfOk result (λ more. (trees : List TypeTree) → AreDeclarations types.old trees self → AreDeclarations types.new (trees ++ type_at types.new of ∷ []) more) }
        ensures ids { IfOk result (AreIds types.new) }
        ensures keeps { OnOk result (Extends types.old types.new) }
        ensures tells { OnOk result (TellsNoMore types.old types.new) }
        ensures layouts { OnOk result (told_in types.new ≡ told_in types.old) }
        ensures err { OnErr result (types.new ≡ types.old) }
    {
        let witnesses = self.witnesses.with(types, of)?;
        let shared = types.composite(self.shared, of)?;
        Ok(Declarations {
            shared: shared.unwrap_or(self.shared),
            witnesses,
        })
    }

    /// What is kept of a name, if anything is, and one declaration more.
    pub(crate) fn joined(
        found: Option<Declarations>,
        types: &mut Types,
        of: TypeId,
    ) -> Result<Declarations, AllocError>
        requires ids { IfSome found (AreIds types.old) }
        requires known { IsTypeId types.old of }
        ensures kept { IfOk result (λ more. (trees : List TypeTree) → AreKept types.old trees found → AreDeclarations types.new (trees ++ type_at types.new of ∷ []) more) }
        ensures ids { IfOk result (AreIds types.new) }
        ensures keeps { OnOk result (Extends types.old types.new) }
        ensures tells { OnOk result (TellsNoMore types.old types.new) }
        ensures layouts { OnOk result (told_in types.new ≡ told_in types.old) }
        ensures none { IfNone found (types.new ≡ types.old) }
        ensures err { OnErr result (types.new ≡ types.old) }
    {
        match found {
            None => Declarations::first(types, of),
            Some(earlier) => earlier.with(types, of),
        }
    }
}
