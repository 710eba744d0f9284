// What a body is made of (C11 6.10.3.1 to 6.10.3.3), as small values that are copied.
use c_tokens::Token;

/// One operand of a body. Parameters are counted from 0.
#[derive(Clone, Copy)]
pub(crate) enum Operand {
    /// A token that is no parameter.
    Own(Token),
    /// A parameter, and whether white space stands before it.
    Argument {
        space: bool,
        parameter: u32,
    },
    /// `#` with its parameter (6.10.3.2 p1), and whether white space stands before the `#`.
    Stringized {
        space: bool,
        parameter: u32,
    },
    /// `, ## V`, where V is the variable parameter, and whether white space stands before V.
    CommaAndRest {
        comma: Token,
        space: bool,
        parameter: u32,
    },
}

/// An operand, or a `##`.
#[derive(Clone, Copy)]
pub(crate) enum Piece {
    PasteSign,
    One(Operand),
}

/// An operand in the flat list of all chains.
#[derive(Clone, Copy)]
pub(crate) struct Part {
    pub(crate) operand: Operand,
    /// No `##` joins it to the operand before it.
    pub(crate) begins: bool,
}

/// How the body takes the argument of a parameter.
#[derive(Clone, Copy)]
pub(crate) struct ParameterUse {
    /// Somewhere expanded: the parameter stands apart from `#` and `##` (6.10.3.1 p1).
    pub(crate) apart: bool,
    /// Somewhere as it is written: it stands beside one.
    pub(crate) raw: bool,
}
