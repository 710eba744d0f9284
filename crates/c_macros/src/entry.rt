// A macro as the table keeps it: with its body read, once. What it becomes isn't known here.
ghost use Rattle.std.specs.Prelude.{◌≡◌, ◌<◌, ℕ, Some, length, map, slice_get, IfOk, IfSome};
ghost use Rattle.meaning_macros.specs.Bodies.{chains};
ghost use Rattle.meaning_macros.specs.WellFormed.{IsWellFormed};
ghost use Rattle.c_macros.specs.Parameters.{params_in};
ghost use Rattle.c_macros.specs.Operands.{grouped, part_by};
ghost use Rattle.c_macros.specs.Seen.{KeepsApart, Spelling, by_ids, macro_by};
ghost use Rattle.c_macros.specs.Uses.{use_in};

use crate::body::{Body, read_body};
use crate::definition::Macro;
use crate::operand::{ParameterUse, Part};
use std::alloc::{AllocError, Global};
use std::marker::Model;

/// An entry of the table. Its value is the macro.
#[derive(Drop)]
pub(crate) struct Entry {
    definition: Macro,
    body: Body,
}

impl Model for Entry {
    ghost use Rattle.c_macros.specs.declared.definition.Macro.{Macro};
    ghost use Rattle.c_macros.specs.Body.{ReadsBody};

    ghost Value = { Macro };

    ghost view = { λ entry. entry.definition };

    ghost invariant = { λ entry. ReadsBody entry.definition entry.body };
}

impl Entry {
    /// Reads the body of the macro.
    pub(crate) fn new(alloc: Global, definition: Macro) -> Result<Self, AllocError>
        requires { IsWellFormed (by_ids definition) }
        ensures { IfOk result (λ entry. entry ≡ definition) }
    {
        let body = read_body(alloc, &definition)?;
        Ok(Entry { definition, body })
    }

    pub(crate) fn definition(&self) -> &Macro
        ensures { result.now ≡ self.now }
    {
        &self.definition
    }

    /// The operands of the body, in chains one behind the other.
    pub(crate) fn operands(&self) -> &[Part]
        ensures { (s : Spelling) → KeepsApart s → grouped (map (part_by s) result.now) ≡ chains (macro_by s self.now) }
    {
        self.body.parts.as_slice()
    }

    /// How the body takes the argument of each parameter.
    pub(crate) fn uses(&self) -> &[ParameterUse]
        ensures { (s : Spelling) → KeepsApart s → (k : ℕ) → k < length (params_in self.now.params) → slice_get result.now k ≡ Some (use_in k (chains (macro_by s self.now))) }
    {
        self.body.uses.as_slice()
    }

    /// How the body takes the argument of this parameter, where there is one of this number.
    pub(crate) fn use_of(&self, parameter: usize) -> Option<ParameterUse>
        ensures { IfSome result (λ taken. (s : Spelling) → KeepsApart s → taken ≡ use_in parameter (chains (macro_by s self.now))) }
    {
        if parameter >= self.definition().parameters().len() {
            return None;
        }
        self.uses().get(parameter).copied()
    }

    /// How the body takes the first argument. Without parameters it takes none.
    pub(crate) fn first_use(&self) -> Option<ParameterUse>
        ensures { IfSome result (λ taken. (s : Spelling) → KeepsApart s → 0 < length (params_in self.now.params) → taken ≡ use_in 0 (chains (macro_by s self.now))) }
    {
        if self.definition().parameters().is_empty() {
            return Some(ParameterUse {
                apart: false,
                raw: false,
            });
        }
        self.use_of(0)
    }
}
