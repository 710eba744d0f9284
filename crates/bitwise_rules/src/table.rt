// The law of each operator.
ghost use Rattle.std.specs.Prelude.{◌≡◌};
ghost use Rattle.bitwise_rules.specs.Seen.{law_seen};
ghost use Rattle.meaning_operands.specs.Operators.{law_of};

use crate::law::{Demand, FoulMark, OperatorLaw, ResultIdentity};
use vocabulary::Operator;

/// Integers that aren't restricted: a restricted one counts as its base.
const ARITHMETIC: OperatorLaw = OperatorLaw {
    demand: Demand::PlainOnly,
    tests: false,
    gives: ResultIdentity::NoIdentity,
    foul: FoulMark::NeverFouled,
};

/// Two of one type are compared.
const COMPARISON: OperatorLaw = OperatorLaw {
    demand: Demand::OneType,
    tests: true,
    gives: ResultIdentity::NoIdentity,
    foul: FoulMark::NeverFouled,
};

/// A value is compared with 0.
const TEST: OperatorLaw = OperatorLaw {
    demand: Demand::Anything,
    tests: true,
    gives: ResultIdentity::NoIdentity,
    foul: FoulMark::NeverFouled,
};

/// Two of one type give one of it, which is fouled where both are.
const INTERSECTION: OperatorLaw = OperatorLaw {
    demand: Demand::OneType,
    tests: false,
    gives: ResultIdentity::OneIdentity,
    foul: FoulMark::BothFouled,
};

/// Two of one type give one of it, which is fouled where one is.
const UNION: OperatorLaw = OperatorLaw {
    demand: Demand::OneType,
    tests: false,
    gives: ResultIdentity::OneIdentity,
    foul: FoulMark::EitherFouled,
};

/// The other bits of the only operand.
const COMPLEMENT: OperatorLaw = OperatorLaw {
    demand: Demand::Anything,
    tests: false,
    gives: ResultIdentity::OwnIdentity,
    foul: FoulMark::ComplementFouled,
};

/// A result that is stored in the left operand, of integers that aren't restricted.
const ARITHMETIC_ASSIGNMENT: OperatorLaw = OperatorLaw {
    demand: Demand::PlainStored,
    tests: false,
    gives: ResultIdentity::StoredIdentity,
    foul: FoulMark::NeverFouled,
};

/// A result that is stored in the left operand, of two of one type.
const BITWISE_ASSIGNMENT: OperatorLaw = OperatorLaw {
    demand: Demand::OneType,
    tests: false,
    gives: ResultIdentity::StoredIdentity,
    foul: FoulMark::NeverFouled,
};

/// The last operand.
const COMMA: OperatorLaw = OperatorLaw {
    demand: Demand::Anything,
    tests: false,
    gives: ResultIdentity::LastIdentity,
    foul: FoulMark::LastFouled,
};

/// The law of an operator, in the order of C11 6.5.
pub fn law_of(op: Operator) -> OperatorLaw
    ensures { law_seen (law_of op).operands result ≡ law_of op }
{
    match op {
        Operator::Subscript => ARITHMETIC,
        Operator::PostIncrement => ARITHMETIC_ASSIGNMENT,
        Operator::PostDecrement => ARITHMETIC_ASSIGNMENT,
        Operator::PreIncrement => ARITHMETIC_ASSIGNMENT,
        Operator::PreDecrement => ARITHMETIC_ASSIGNMENT,
        Operator::UnaryPlus => ARITHMETIC,
        Operator::Negation => ARITHMETIC,
        Operator::Complement => COMPLEMENT,
        Operator::LogicalNot => TEST,
        Operator::Multiplication => ARITHMETIC,
        Operator::Division => ARITHMETIC,
        Operator::Remainder => ARITHMETIC,
        Operator::Addition => ARITHMETIC,
        Operator::Subtraction => ARITHMETIC,
        Operator::LeftShift => ARITHMETIC,
        Operator::RightShift => ARITHMETIC,
        Operator::Less => ARITHMETIC,
        Operator::Greater => ARITHMETIC,
        Operator::LessOrEqual => ARITHMETIC,
        Operator::GreaterOrEqual => ARITHMETIC,
        Operator::Equal => COMPARISON,
        Operator::NotEqual => COMPARISON,
        Operator::BitwiseAnd => INTERSECTION,
        Operator::BitwiseExclusiveOr => UNION,
        Operator::BitwiseOr => UNION,
        Operator::LogicalAnd => TEST,
        Operator::LogicalOr => TEST,
        Operator::Conditional => UNION,
        Operator::MultiplicationAssignment => ARITHMETIC_ASSIGNMENT,
        Operator::DivisionAssignment => ARITHMETIC_ASSIGNMENT,
        Operator::RemainderAssignment => ARITHMETIC_ASSIGNMENT,
        Operator::AdditionAssignment => ARITHMETIC_ASSIGNMENT,
        Operator::SubtractionAssignment => ARITHMETIC_ASSIGNMENT,
        Operator::LeftShiftAssignment => ARITHMETIC_ASSIGNMENT,
        Operator::RightShiftAssignment => ARITHMETIC_ASSIGNMENT,
        Operator::BitwiseAndAssignment => BITWISE_ASSIGNMENT,
        Operator::BitwiseExclusiveOrAssignment => BITWISE_ASSIGNMENT,
        Operator::BitwiseOrAssignment => BITWISE_ASSIGNMENT,
        Operator::Comma => COMMA,
    }
}
