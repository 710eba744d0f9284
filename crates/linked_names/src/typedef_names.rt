// The typedefs as their callers see them.
ghost use Rattle.std.specs.Prelude.{◌≡◌, ℕ, Some, None, OnErr, OnOk, if◌then◌else◌};
ghost use Rattle.std.specs.Option.{option_or};
ghost use Rattle.sparse_model.specs.declared.ids.NameId.{NameId};
ghost use Rattle.indexmap.specs.IndexMap.{get};
ghost use Rattle.linked_names.specs.Typedefs.{same_scoped};

use crate::declaration::Typedef;
use crate::trace::TypedefTrace;
use indexmap::IndexMap;
use sparse_model::{NameId, TypeId};
use std::alloc::{AllocError, Global};
use std::marker::Model;

/// The typedefs of a unit so far. Its value is the list of them, in order.
///
/// The first of each scope and name is kept.
#[derive(Drop)]
pub struct TypedefNames {
    // The hasher has a fixed seed, so names that were chosen to collide cost time, and nothing else.
    kept: IndexMap<(u32, NameId), TypeId>,
    trace: TypedefTrace,
}

impl Model for TypedefNames {
    ghost use Rattle.std.specs.Prelude.{List};
    ghost use Rattle.linked_names.specs.declared.declaration.Typedef.{Typedef};

    ghost Value = { List Typedef };

    ghost use Rattle.indexmap.specs.IndexMap.{get};
    ghost use Rattle.linked_names.specs.Typedefs.{KeepsFirst, same_scoped};

    ghost view = { λ names. names.trace.typedefs };

    ghost invariant = { λ names. KeepsFirst names.trace.typedefs (get same_scoped names.kept) };
}

impl TypedefNames {
    ghost use Rattle.std.specs.Prelude.{◌++◌, ◌∷◌, [], IfSome};
    ghost use Rattle.c_types.specs.Table.{TypeTable, IsTypeId};
    ghost use Rattle.linked_names.specs.Typedefs.{AreTypedefIds, first_of};

    /// No typedefs, in no memory.
    pub fn new(alloc: Global) -> TypedefNames
        ensures { result ≡ [] }
    {
        TypedefNames {
            kept: IndexMap::new(alloc),
            trace: TypedefTrace::new(),
        }
    }

    /// The type of the first typedef of this name in this scope. It takes no memory.
    pub fn first(&self, scope: u32, name: NameId) -> Option<TypeId>
        ensures first { result ≡ first_of scope name self.now }
        ensures known { (table : TypeTable) → AreTypedefIds table self.now → IfSome result (IsTypeId table) }
    {
        self.kept.get(&(scope, name)).copied()
    }

    /// Joins a typedef of this name in this scope.
    pub fn declare(&mut self, scope: u32, name: NameId, of: TypeId) -> Result<(), AllocError>
        ensures joins { OnOk result (self.new ≡ self.old ++ record { scope = scope; name = name; of = of } ∷ []) }
        ensures err { OnErr result (self.new ≡ self.old) }
    {
        keep_first(&mut self.kept, (scope, name), of)?;
        self.trace = self.trace.then(&Typedef { scope, name, of });
        Ok(())
    }
}

// Keeps the type of a name in its scope, unless there is one.
fn keep_first(
    kept: &mut IndexMap<(u32, NameId), TypeId>,
    key: (u32, NameId),
    of: TypeId,
) -> Result<(), AllocError>
    ensures kept { OnOk result ((other : ℕ × NameId) → get same_scoped kept.new other ≡ option_or (get same_scoped kept.old other) (if same_scoped key other then Some of else None)) }
    ensures err { OnErr result (kept.new.entries ≡ kept.old.entries) }
{
    if kept.contains_key(&key) {
        return Ok(());
    }
    kept.insert(key, of)?;
    Ok(())
}
