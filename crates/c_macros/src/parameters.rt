// The parameters of a macro, found by their ids. What they become isn't known here.
ghost use Rattle.std.specs.Prelude.{◌≡◌, ◌<◌, ◌^◌, true, length, map, IfOk};
ghost use Rattle.meaning_macros.specs.Bodies.{number_of_name, parameter_of};
ghost use Rattle.meaning_macros.specs.WellFormed.{are_different};
ghost use Rattle.c_macros.specs.Seen.{KeepsApart, Spelling, own_text, token_by};

use c_tokens::Token;
use indexmap::IndexSet;
use sparse_model::{NameId, TokenKind};
use std::alloc::{AllocError, Global};
use std::marker::Model;

/// More parameters than this are want of memory.
const MAX_PARAMETERS: usize = 0xffff_ffff;

/// The names of parameters, each at its number.
#[derive(Drop)]
pub(crate) struct Parameters {
    names: IndexSet<NameId>,
}

impl Model for Parameters {
    ghost use Rattle.std.specs.Prelude.{◌<◌, ◌^◌, List, length};
    ghost use Rattle.sparse_model.specs.declared.ids.NameId.{NameId};

    ghost Value = { List NameId };

    ghost view = { λ parameters. parameters.names.keys };

    ghost invariant = { λ parameters. length parameters.names.keys < 2 ^ 32 };
}

impl Parameters {
    /// The parameters of these names. It takes time in their number alone.
    pub(crate) fn new(alloc: Global, names: &[NameId]) -> Result<Self, AllocError>
        requires { are_different (map own_text names.now) ≡ true }
        ensures same { IfOk result (λ parameters. parameters ≡ names.now) }
    {
        if names.len() > MAX_PARAMETERS {
            return Err(AllocError);
        }
        let mut set = IndexSet::new(alloc);
        for name in names {
            set.insert(*name)?;
        }
        Ok(Parameters { names: set })
    }

    pub(crate) fn len(&self) -> u32
        ensures { result ≡ length self.now }
    {
        self.names.len() as u32
    }

    /// The number of the parameter that the token names.
    pub(crate) fn number_of(&self, token: &Token) -> Option<u32>
        ensures { (s : Spelling) → KeepsApart s → result ≡ parameter_of (map s self.now) (token_by s token.now) }
    {
        match token.kind {
            TokenKind::Identifier => self.number_of_name(token.name),
            _ => None,
        }
    }

    // The number of the parameter of this name.
    fn number_of_name(&self, name: NameId) -> Option<u32>
        ensures { (s : Spelling) → KeepsApart s → result ≡ number_of_name (s name) (map s self.now) }
    {
        match self.names.get_index_of(&name) {
            Some(index) => Some(index as u32),
            None => None,
        }
    }
}
