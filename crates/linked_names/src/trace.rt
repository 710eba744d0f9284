// The declarations so far, for proofs alone: no trace takes a byte when the program runs.
ghost use Rattle.std.specs.Prelude.{◌≡◌, List, [], ◌∷◌, ◌++◌};
ghost use base.Fml.{ftrue};
ghost use Rattle.c_types.specs.Table.{TypeTable};
ghost use Rattle.linked_names.specs.declared.declaration.Declared.{Declared};
ghost use Rattle.linked_names.specs.declared.declaration.Linked.{Linked};
ghost use Rattle.linked_names.specs.declared.declaration.Typedef.{Typedef};

use crate::declaration::{Declared, Linked, Typedef};
use c_types::Types;
use std::marker::Model;

/// The declarations with linkage, in order, and the table of types behind the last one.
#[derive(Drop)]
pub(crate) struct LinkedTrace {
    pub ghost declarations: { List Linked },
    pub ghost over: { TypeTable },
}

impl Model for LinkedTrace {
    ghost also_owns = { λ _. ftrue };
}

impl LinkedTrace {
    ghost use Rattle.linked_names.specs.Linked.{no_types};

    /// No declaration yet.
    pub(crate) fn new() -> LinkedTrace
        ensures { result ≡ record { declarations = []; over = no_types } }
    {
        LinkedTrace {}
    }

    /// The same declarations, and then this one over these types.
    pub(crate) fn then(&self, _types: &Types, _declaration: &Linked) -> LinkedTrace
        ensures { result ≡ record { declarations = self.now.declarations ++ _declaration.now ∷ []; over = _types.now } }
    {
        LinkedTrace {}
    }
}

/// The same of declarations with contexts.
#[derive(Drop)]
pub(crate) struct DeclaredTrace {
    pub ghost declarations: { List Declared },
    pub ghost over: { TypeTable },
}

impl Model for DeclaredTrace {
    ghost also_owns = { λ _. ftrue };
}

impl DeclaredTrace {
    ghost use Rattle.linked_names.specs.Linked.{no_types};

    /// No declaration yet.
    pub(crate) fn new() -> DeclaredTrace
        ensures { result ≡ record { declarations = []; over = no_types } }
    {
        DeclaredTrace {}
    }

    /// The same declarations, and then this one over these types.
    pub(crate) fn then(&self, _types: &Types, _declaration: &Declared) -> DeclaredTrace
        ensures { result ≡ record { declarations = self.now.declarations ++ _declaration.now ∷ []; over = _types.now } }
    {
        DeclaredTrace {}
    }
}

/// The typedefs, in order.
#[derive(Drop)]
pub(crate) struct TypedefTrace {
    pub ghost typedefs: { List Typedef },
}

impl Model for TypedefTrace {
    ghost also_owns = { λ _. ftrue };
}

impl TypedefTrace {
    /// No typedef yet.
    pub(crate) fn new() -> TypedefTrace
        ensures { result.typedefs ≡ [] }
    {
        TypedefTrace {}
    }

    /// The same typedefs, and then this one.
    pub(crate) fn then(&self, _typedef: &Typedef) -> TypedefTrace
        ensures { result.typedefs ≡ self.now.typedefs ++ _typedef.now ∷ [] }
    {
        TypedefTrace {}
    }
}
