// The names that are visible. Names arrive by their ids, and scopes leave with them or without. Which declarations these are
// isn't known here.
use crate::asking::name_at;
use crate::marks::{HeldError, PassedLimit};
use crate::state::ParseState;
use c_scope::{Bound, NameSpace, Scopes};
use c_tree::Handle;
use sparse_model::NameId;
use std::alloc::AllocError;
use vocabulary::TokenClass;

impl<'t> ParseState<'t> {
    ghost use Rattle.std.specs.Prelude.{◌≡◌, ◌∷◌, OnErr, OnOk, option_map};
    ghost use Rattle.std.specs.Str.{bytes_eq};
    ghost use Rattle.meaning_scopes.specs.Scopes.{Opened, is_open, without_scope};
    ghost use Rattle.meaning_scopes.specs.Classes.{class_of_name};
    ghost use Rattle.meaning_derivation.specs.Values.{text_of as text_below, value_at as value_below};
    ghost use Rattle.meaning_derivation.specs.Scoping.{bound, with_scopes};
    ghost use Rattle.c_tokens.specs.Seen.{IsKnown, text_of};
    ghost use Rattle.parse_state.specs.Seen.{held_of, passed_of, state_of};

    /// How the grammar takes a name that is no keyword.
    pub fn class(&self, name: NameId) -> TokenClass
        requires { IsKnown self.now.names name }
        ensures { result ≡ class_of_name bytes_eq (state_of self.now).scopes (text_of self.now.names name) }
    {
        self.names.apart();
        self.scopes.class(name)
    }

    /// Whether a scope is open.
    pub fn is_open(&self) -> bool
        ensures { result ≡ is_open (state_of self.now).scopes }
    {
        self.scopes.is_open()
    }

    /// Binds the spelling of a word in the innermost scope: it stands for what this number says.
    pub fn bind(
        &mut self,
        space: NameSpace,
        depth: usize,
        declaration: Handle,
        kind: Bound,
    ) -> Result<(), AllocError>
        ensures ok { OnOk result (state_of self.new ≡ bound (state_of self.old) space (text_below (value_below (state_of self.old).values depth)) declaration kind) }
        ensures names { self.new.names ≡ self.old.names }
    {
        self.names.apart();
        let name = name_at(&self.values, depth);
        self.scopes.bind(space, name, declaration, kind)?;
        Ok(())
    }

    /// Opens a scope.
    pub fn enter_scope(&mut self) -> Result<(), AllocError>
        ensures ok { OnOk result (state_of self.new ≡ with_scopes (state_of self.old) (Opened ∷ (state_of self.old).scopes)) }
        ensures err { OnErr result (self.new ≡ self.old) }
        ensures names { self.new.names ≡ self.old.names }
    {
        self.scopes.enter()
    }

    /// Closes the innermost scope, or that of the file where no other is open.
    pub fn leave_scope(&mut self)
        ensures state { state_of self.new ≡ with_scopes (state_of self.old) (without_scope (state_of self.old).scopes) }
        ensures names { self.new.names ≡ self.old.names }
    {
        if self.scopes.is_open() {
            self.scopes.leave();
        } else {
            self.scopes = Scopes::new(self.alloc);
        }
    }

    /// The limit that was passed first, if one was.
    pub fn passed(&self) -> Option<PassedLimit>
        ensures { option_map passed_of result ≡ (state_of self.now).passed }
    {
        self.passed
    }

    /// The error that is told when the next terminal is taken, if there is one.
    pub fn held(&self) -> Option<HeldError>
        ensures { option_map held_of result ≡ (state_of self.now).held }
    {
        self.held
    }

    /// The terminal behind a function's declarator in a body, where no body may follow.
    pub fn function_end(&self) -> Option<u32>
        ensures { result ≡ (state_of self.now).function_end }
    {
        self.function_end
    }

    /// What the token of the next terminal is last: the index behind the tokens of the unit.
    pub fn last_token(&self) -> u32
        ensures { result ≡ (state_of self.now).last_token }
    {
        self.last_token
    }
}
