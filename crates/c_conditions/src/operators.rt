//! The operators of an expression behind `#if`.
ghost use Rattle.std.specs.Prelude.{◌≡◌};
ghost use Rattle.meaning_conditions.specs.Operators.{rank};
ghost use Rattle.meaning_conditions.specs.Values.{gives_truth, is_taken_unsigned};
ghost use Rattle.c_conditions.specs.Seen.{binary_seen};

/// An operator before its operand (C11 6.5.3.3).
#[derive(Clone, Copy, Debug, PartialEq, Eq)]
pub(crate) enum Unary {
    Plus,
    Negative,
    Complement,
    Not,
}

/// An operator between two operands (6.5.5 to 6.5.14).
#[derive(Clone, Copy, Debug, PartialEq, Eq)]
pub(crate) enum Binary {
    Multiply,
    Divide,
    Remainder,
    Add,
    Subtract,
    LeftShift,
    RightShift,
    Less,
    Greater,
    LessEqual,
    GreaterEqual,
    Equal,
    NotEqual,
    BitAnd,
    BitXor,
    BitOr,
    And,
    Or,
}

impl Binary {
    /// How strongly it binds.
    pub(crate) fn rank(self) -> u8
        ensures { result ≡ rank (binary_seen self) }
    {
        match self {
            Binary::Or => 1,
            Binary::And => 2,
            Binary::BitOr => 3,
            Binary::BitXor => 4,
            Binary::BitAnd => 5,
            Binary::Equal | Binary::NotEqual => 6,
            Binary::Less | Binary::Greater => 7,
            Binary::LessEqual | Binary::GreaterEqual => 7,
            Binary::LeftShift | Binary::RightShift => 8,
            Binary::Add | Binary::Subtract => 9,
            Binary::Multiply | Binary::Divide | Binary::Remainder => 10,
        }
    }

    /// Its operands are taken as unsigned, where they are so.
    pub(crate) fn is_taken_unsigned(self, left: bool, right: bool) -> bool
        ensures { result ≡ is_taken_unsigned (binary_seen self) left right }
    {
        match self {
            Binary::LeftShift | Binary::RightShift => left,
            _ => left || right,
        }
    }

    /// It gives 1 or 0, which is signed.
    pub(crate) fn gives_truth(self) -> bool
        ensures { result ≡ gives_truth (binary_seen self) }
    {
        match self {
            Binary::Less | Binary::Greater => true,
            Binary::LessEqual | Binary::GreaterEqual => true,
            Binary::Equal | Binary::NotEqual => true,
            Binary::And | Binary::Or => true,
            _ => false,
        }
    }
}
