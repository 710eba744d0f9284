// What a name stands for. Its name, and what a call becomes, aren't known here.
ghost use Rattle.std.specs.Prelude.{◌≡◌};
ghost use Rattle.c_macros.specs.Parameters.{params_in};

use c_tokens::TokenList;
use sparse_model::{NameId, NameList};

/// A macro (C11 6.10.3).
#[derive(Drop)]
pub struct Macro {
    /// The names of the parameters in order, with that of `...`. None of an object-like macro.
    pub params: Option<NameList>,
    /// The last parameter takes the rest of the arguments.
    pub variadic: bool,
    /// What comes in place of the name, or of the call.
    pub body: TokenList,
}

impl Macro {
    /// The names of the parameters. An object-like macro has none.
    pub(crate) fn parameters(&self) -> &[NameId]
        ensures { result.now ≡ params_in self.now.params }
    {
        match &self.params {
            Some(names) => names.as_slice(),
            None => &[],
        }
    }
}
