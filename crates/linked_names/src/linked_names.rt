// The declarations with linkage as their callers see them.
use crate::declaration::Linked;
use crate::declarations::Declarations;
use crate::trace::LinkedTrace;
use c_types::Types;
use indexmap::IndexMap;
use sparse_model::{NameId, TypeId};
use std::alloc::{AllocError, Global};
use std::marker::Model;

/// The declarations with linkage of a unit so far. Its value is the list of them, in order, with the table of types as
/// it stood behind the last one.
///
/// Of each name a handful is kept, which is touched once a declaration.
#[derive(Drop)]
pub struct LinkedNames {
    // The hasher has a fixed seed, so names that were chosen to collide cost time, and nothing else.
    kept: IndexMap<NameId, Declarations>,
    trace: LinkedTrace,
}

impl Model for LinkedNames {
    ghost use Rattle.linked_names.specs.Linked.{LinkedDeclarations};

    ghost Value = { LinkedDeclarations };

    ghost use Rattle.indexmap.specs.IndexMap.{get};
    ghost use Rattle.linked_names.specs.Kept.{IsIndex, same_key};

    ghost view = { λ names. record { declarations = names.trace.declarations; over = names.trace.over } };

    ghost invariant = { λ names. IsIndex names.trace.over names.trace.declarations (get same_key names.kept) };
}

impl LinkedNames {
    ghost use Rattle.std.specs.Prelude.{◌≡◌, ◌++◌, ◌∷◌, [], IfSome, OnErr, OnOk, option_map};
    ghost use Rattle.meaning_typing.specs.Names.{first_unlike};
    ghost use Rattle.c_types.specs.Layouts.{told_in};
    ghost use Rattle.c_types.specs.Table.{Extends, IsTypeId, TellsNoMore, TypeTable, type_at};
    ghost use Rattle.linked_names.specs.Linked.{AreTypeIds, shared_type, types_of};

    /// No declarations, in no memory.
    pub fn new(alloc: Global) -> LinkedNames
        ensures none { result.declarations ≡ [] }

        // Any table will do.
        ensures over { (table : TypeTable) → Extends result.over table }
    {
        LinkedNames {
            kept: IndexMap::new(alloc),
            trace: LinkedTrace::new(),
        }
    }

    /// All types are of the table.
    pub fn types_are_known(&self)
        ensures { AreTypeIds self.now.over self.now.declarations }
    {
        let _kept = &self.kept;
    }

    /// The type of the object or function of this name, if it was declared (C11 6.2.7 p3): that of its first declaration,
    /// with a length that one of them has. It takes no memory.
    pub fn type_of(&self, name: NameId) -> Option<TypeId>
        ensures shared { option_map (type_at self.now.over) result ≡ shared_type (types_of self.now.over name self.now.declarations) }
        ensures known { IfSome result (IsTypeId self.now.over) }
    {
        match self.kept.get(&name) {
            Some(declarations) => Some(declarations.shared),
            None => None,
        }
    }

    /// Of the declarations of this name the type of the first that disagrees with this one, where a length may be missing.
    /// It takes no memory, and a few steps.
    pub fn first_unlike(&self, types: &Types, name: NameId, of: TypeId) -> Option<TypeId>
        requires over { Extends self.now.over types.now }
        requires known { IsTypeId types.now of }
        ensures unlike { option_map (type_at types.now) result ≡ first_unlike (type_at types.now of) (types_of types.now name self.now.declarations) }
        ensures known { IfSome result (IsTypeId types.now) }
    {
        match self.kept.get(&name) {
            Some(declarations) => declarations.witnesses.first_unlike(types, of),
            None => None,
        }
    }

    /// Joins a declaration of this name. The type of what it declares joins the table if it is new.
    pub fn declare(&mut self, types: &mut Types, name: NameId, of: TypeId) -> Result<(), AllocError>
        requires over { Extends self.old.over types.old }
        requires known { IsTypeId types.old of }
        ensures joins { OnOk result (self.new.declarations ≡ self.old.declarations ++ record { name = name; of = of } ∷ []) }
        ensures over { OnOk result (self.new.over ≡ types.new) }
        ensures extends { OnOk result (Extends self.new.over types.new) }
        ensures keeps { OnOk result (Extends types.old types.new) }
        ensures tells { OnOk result (TellsNoMore types.old types.new) }
        ensures layouts { OnOk result (told_in types.new ≡ told_in types.old) }
        ensures err { OnErr result (self.new ≡ self.old) }
        ensures same_types { OnErr result (types.new ≡ types.old) }
    {
        let found = self.kept.get(&name).copied();
        let declarations = Declarations::joined(found, types, of)?;
        self.kept.insert(name, declarations)?;
        self.trace = self.trace.then(types, &Linked { name, of });
        Ok(())
    }
}
