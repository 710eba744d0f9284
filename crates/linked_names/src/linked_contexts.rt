// The declarations with linkage and their contexts, as their callers see them.
ghost use Rattle.std.specs.Prelude.{◌≡◌};
ghost use Rattle.std.specs.Option.{option_and_then};
ghost use Rattle.indexmap.specs.IndexMap.{get};
ghost use Rattle.linked_names.specs.Typedefs.{same_scoped};

use crate::carried::Carried;
use crate::declaration::Declared;
use crate::sums::ContextSums;
use crate::trace::DeclaredTrace;
use c_types::Types;
use indexmap::IndexMap;
use sparse_model::{NameId, TypeId};
use std::alloc::{AllocError, Global};
use std::marker::Model;

/// The declarations with linkage of a unit so far, each with the sums of its contexts. Its value is the list of them, in
/// order, with the table of types as it stood behind the last one.
///
/// Of each name a handful is kept, which is touched once a declaration, and besides the node of each declaration.
#[derive(Drop)]
pub struct LinkedContexts {
    // The hasher has a fixed seed, so names that were chosen to collide cost time, and nothing else.
    kept: IndexMap<NameId, Carried>,
    // By how many of the name stand before it.
    nodes: IndexMap<(u32, NameId), u32>,
    trace: DeclaredTrace,
}

impl Model for LinkedContexts {
    ghost use Rattle.linked_names.specs.Contexts.{CarriedDeclarations};

    ghost Value = { CarriedDeclarations };

    ghost use Rattle.indexmap.specs.IndexMap.{get};
    ghost use Rattle.linked_names.specs.Contexts.{IsKeptOfAll};
    ghost use Rattle.linked_names.specs.Kept.{same_key};
    ghost use Rattle.linked_names.specs.Typedefs.{same_scoped};

    ghost view = { λ names. record { declarations = names.trace.declarations; over = names.trace.over } };

    ghost invariant = { λ names. IsKeptOfAll names.trace.over names.trace.declarations (get same_key names.kept) (get same_scoped names.nodes) };
}

impl LinkedContexts {
    ghost use Rattle.std.specs.Prelude.{◌++◌, ◌∷◌, [], IfSome, OnErr, OnOk, option_map};
    ghost use Rattle.meaning_typing.specs.ContextSums.{first_contexts, first_differing};
    ghost use Rattle.c_types.specs.Layouts.{told_in};
    ghost use Rattle.c_types.specs.Table.{Extends, IsTypeId, TellsNoMore, TypeTable, type_at};
    ghost use Rattle.linked_names.specs.Contexts.{AreDeclaredIds, declaration_of, declarations_of, nodes_declaring, sums_of, types_declared};
    ghost use Rattle.linked_names.specs.Linked.{shared_type};

    /// No declarations, in no memory.
    pub fn new(alloc: Global) -> LinkedContexts
        ensures none { result.declarations ≡ [] }

        // Any table will do.
        ensures over { (table : TypeTable) → Extends result.over table }
    {
        LinkedContexts {
            kept: IndexMap::new(alloc),
            nodes: IndexMap::new(alloc),
            trace: DeclaredTrace::new(),
        }
    }

    /// All types are of the table.
    pub fn types_are_known(&self)
        ensures { AreDeclaredIds self.now.over self.now.declarations }
    {
        let _kept = &self.kept;
    }

    /// The type of the object or function of this name, if it was declared (C11 6.2.7 p3): that of its first declaration,
    /// with a length that one of them has. It takes no memory.
    pub fn type_of(&self, name: NameId) -> Option<TypeId>
        ensures shared { option_map (type_at self.now.over) result ≡ shared_type (types_declared (declarations_of self.now.over name self.now.declarations)) }
        ensures known { IfSome result (IsTypeId self.now.over) }
    {
        match self.kept.get(&name) {
            Some(carried) => Some(carried.declarations.shared),
            None => None,
        }
    }

    /// The contexts of the object or function of this name: those of the first declaration that carries some. It takes no
    /// memory.
    pub fn contexts_of(&self, name: NameId) -> Option<ContextSums>
        ensures { option_map sums_of result ≡ first_contexts (declarations_of self.now.over name self.now.declarations) }
    {
        match self.kept.get(&name) {
            Some(carried) => match carried.carriers.first {
                Some(first) => Some(first.sums),
                None => None,
            },
            None => None,
        }
    }

    /// Of the declarations of this name the node of the first that differs from one of this type with these contexts: its type
    /// disagrees, where a length may be missing, or both carry contexts and a sum differs. It takes no memory, and a few steps.
    pub fn first_differing(
        &self,
        types: &Types,
        name: NameId,
        of: TypeId,
        contexts: Option<ContextSums>,
    ) -> Option<u32>
        requires over { Extends self.now.over types.now }
        requires known { IsTypeId types.now of }
        ensures { result ≡ first_differing (declaration_of types.now of contexts) (nodes_declaring name self.now.declarations) (declarations_of types.now name self.now.declarations) }
    {
        match self.kept.get(&name) {
            Some(carried) => {
                let place = carried.first_differing(types, of, contexts);
                node_at(&self.nodes, name, place)
            }
            None => None,
        }
    }

    /// Joins a declaration of this name by a node. The type of what it declares joins the table if it is new.
    pub fn declare(
        &mut self,
        types: &mut Types,
        node: u32,
        name: NameId,
        of: TypeId,
        contexts: Option<ContextSums>,
    ) -> Result<(), AllocError>
        requires over { Extends self.old.over types.old }
        requires known { IsTypeId types.old of }
        ensures joins { OnOk result (self.new.declarations ≡ self.old.declarations ++ record { node = node; name = name; of = of; contexts = contexts } ∷ []) }
        ensures over { OnOk result (self.new.over ≡ types.new) }
        ensures extends { OnOk result (Extends self.new.over types.new) }
        ensures keeps { OnOk result (Extends types.old types.new) }
        ensures tells { OnOk result (TellsNoMore types.old types.new) }
        ensures layouts { OnOk result (told_in types.new ≡ told_in types.old) }
        ensures err { OnErr result (self.new ≡ self.old) }
        ensures same_types { OnErr result (types.new ≡ types.old) }
    {
        let found = self.kept.get(&name).copied();
        self.nodes.insert((Carried::count(found), name), node)?;
        let carried = Carried::joined(found, types, of, contexts)?;
        self.kept.insert(name, carried)?;
        self.trace = self.trace.then(
            types,
            &Declared {
                node,
                name,
                of,
                contexts,
            },
        );
        Ok(())
    }
}

// The node of the declaration of this name behind so many others.
fn node_at(nodes: &IndexMap<(u32, NameId), u32>, name: NameId, place: Option<u32>) -> Option<u32>
    ensures { result ≡ option_and_then (λ before. get same_scoped nodes.now (before, name)) place }
{
    match place {
        Some(before) => nodes.get(&(before, name)).copied(),
        None => None,
    }
}
