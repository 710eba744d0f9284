// What control asks of the judge of a unit, by handles.
use c_tree::Handle;
use control_flow::ContextNote;

/// What is known of a function, over all its declarations.
#[derive(Clone, Copy, Debug, PartialEq, Eq)]
pub struct FunctionNote {
    /// The counts with which it is entered and left, where it has contexts.
    pub contexts: Option<ContextNote>,
    /// It never returns.
    pub is_noreturn: bool,
}

/// What control asks of the judge of a unit. It stands for the fields of a `JudgedUnit` besides its nodes.
pub trait ControlFacts {
    ghost use Rattle.std.specs.Prelude.{◌≡◌};
    ghost use Rattle.meaning_typing.specs.Evaluation as typing;
    ghost use Rattle.meaning_typing.specs.Facts.{fact_at};
    ghost use Rattle.linear_code.specs.Known.{KnownFacts, function_known};

    /// What the judge knows.
    ghost known: { Self → KnownFacts };

    /// Whether a declarator declares an object that comes to be where its declaration is reached (C11 6.2.4 p5).
    fn is_automatic(&self, declarator: Handle) -> bool
        ensures { result ≡ typing.is_automatic (fact_at (known self.now).facts declarator) };

    /// What is known of the function that the declarator with this handle declares, if it does.
    fn function_at(&self, declarator: u64) -> Option<FunctionNote>
        ensures { result ≡ function_known (known self.now) declarator };

    /// The number of an expression that is constant (6.6 p6).
    fn constant(&self, expression: Handle) -> Option<i128>
        ensures { result ≡ (known self.now).constant expression };

    /// The number of a `case` in the type of its switch (6.8.4.2 p5).
    fn case_number(&self, statement: Handle) -> i128
        ensures { result ≡ (known self.now).case_number statement };
}
