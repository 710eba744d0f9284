// The numbers that users see of rules, errors and exits, beside those in the lists; and a list in its order.
use ksparse::Exit;
use sparse_model::{Bytes, ErrorKind, RuleCode, Seq};
use std::test::Fail;

// The rules and their numbers, from the list of rules.
#[rattlefmt::skip]
const RULES: [(RuleCode, u8); 26] = [
    (RuleCode::A1, 1), (RuleCode::A2, 2), (RuleCode::A3, 3), (RuleCode::A4, 4),
    (RuleCode::A5, 5), (RuleCode::A6, 6), (RuleCode::A7, 7), (RuleCode::B1, 8),
    (RuleCode::B2, 9), (RuleCode::B3, 10), (RuleCode::B4, 11), (RuleCode::B5, 12),
    (RuleCode::B6, 13), (RuleCode::B7, 14), (RuleCode::C1, 15), (RuleCode::C2, 16),
    (RuleCode::C3, 17), (RuleCode::N1, 18), (RuleCode::S1, 19), (RuleCode::S2, 20),
    (RuleCode::S3, 21), (RuleCode::S4, 22), (RuleCode::S5, 23), (RuleCode::S6, 24),
    (RuleCode::S7, 25), (RuleCode::S8, 26),
];

// The errors and the numbers that their lines show, from the list of errors.
#[rattlefmt::skip]
const ERRORS: [(ErrorKind, u8); 89] = [
    (ErrorKind::NoSuchFile, 1),
    (ErrorKind::IncludeNotFound, 2),
    (ErrorKind::UnterminatedComment, 3),
    (ErrorKind::UnterminatedLiteral, 4),
    (ErrorKind::UnterminatedConditional, 5),
    (ErrorKind::ConditionalWithoutIf, 6),
    (ErrorKind::ConditionalAfterElse, 7),
    (ErrorKind::MalformedDirective, 8),
    (ErrorKind::UnknownDirective, 9),
    (ErrorKind::MacroRedefined, 10),
    (ErrorKind::BadMacroDefinition, 11),
    (ErrorKind::WrongNumberOfMacroArguments, 12),
    (ErrorKind::UnterminatedMacroCall, 13),
    (ErrorKind::BadPaste, 14),
    (ErrorKind::BadIfExpression, 15),
    (ErrorKind::DivisionByZeroInIf, 16),
    (ErrorKind::ErrorDirective, 17),
    (ErrorKind::SyntaxError, 20),
    (ErrorKind::NotDeclared, 21),
    (ErrorKind::Redeclared, 22),
    (ErrorKind::BadAttribute, 23),
    (ErrorKind::BadNumber, 24),
    (ErrorKind::NumberTooLarge, 25),
    (ErrorKind::BadEscape, 26),
    (ErrorKind::EmptyCharacterConstant, 27),
    (ErrorKind::BadDeclaration, 28),
    (ErrorKind::FloatingType, 30),
    (ErrorKind::InlineAssembly, 31),
    (ErrorKind::ParameterWithoutType, 32),
    (ErrorKind::NestedFunction, 33),
    (ErrorKind::ComputedGoto, 34),
    (ErrorKind::GenericSelection, 35),
    (ErrorKind::AtomicType, 36),
    (ErrorKind::ComplexType, 37),
    (ErrorKind::ThreadLocal, 38),
    (ErrorKind::Int128, 39),
    (ErrorKind::LocalLabel, 40),
    (ErrorKind::UniversalCharacterName, 41),
    (ErrorKind::WideOrUtfLiteral, 42),
    (ErrorKind::CaseRange, 43),
    (ErrorKind::DesignatorRange, 44),
    (ErrorKind::AutoType, 45),
    (ErrorKind::Alignas, 46),
    (ErrorKind::Builtin, 47),
    (ErrorKind::PragmaOperator, 48),
    (ErrorKind::QualifierInArrayBrackets, 49),
    (ErrorKind::BadScriptLine, 51),
    (ErrorKind::NotPlain, 52),
    (ErrorKind::CannotDereference, 61),
    (ErrorKind::CannotTakeAddress, 62),
    (ErrorKind::NotModifiable, 63),
    (ErrorKind::WrongOperandTypes, 64),
    (ErrorKind::CalledObjectIsNoFunction, 65),
    (ErrorKind::WrongNumberOfArguments, 66),
    (ErrorKind::NoSuchMember, 67),
    (ErrorKind::NoAggregate, 68),
    (ErrorKind::VoidValueUsed, 69),
    (ErrorKind::IncompleteType, 70),
    (ErrorKind::IncompatibleTypes, 71),
    (ErrorKind::BadCast, 72),
    (ErrorKind::ConditionIsNotScalar, 73),
    (ErrorKind::SwitchOnNoInteger, 74),
    (ErrorKind::CaseLabelIsNotConstant, 75),
    (ErrorKind::CaseValueUsedTwice, 76),
    (ErrorKind::TwoDefaultLabels, 77),
    (ErrorKind::LabelOutsideSwitch, 78),
    (ErrorKind::JumpOutsideLoop, 79),
    (ErrorKind::LabelIsNotDefined, 80),
    (ErrorKind::LabelDefinedTwice, 81),
    (ErrorKind::JumpIntoStatementExpression, 82),
    (ErrorKind::ValueReturnedFromVoid, 83),
    (ErrorKind::ReturnWithoutValue, 84),
    (ErrorKind::VariableLengthArray, 85),
    (ErrorKind::NegativeArraySize, 86),
    (ErrorKind::BadElementType, 87),
    (ErrorKind::BadResultType, 88),
    (ErrorKind::BadBitField, 89),
    (ErrorKind::RestrictedBitField, 90),
    (ErrorKind::BitwiseOnNoInteger, 91),
    (ErrorKind::EnumeratorIsNotConstant, 92),
    (ErrorKind::EnumeratorOutOfRange, 93),
    (ErrorKind::MemberDeclaredTwice, 94),
    (ErrorKind::TagRedeclared, 95),
    (ErrorKind::DefinedTwice, 96),
    (ErrorKind::StaticAssertionFailed, 97),
    (ErrorKind::ExtraInitializer, 98),
    (ErrorKind::InitializerIsNotConstant, 99),
    (ErrorKind::BadDesignator, 100),
    (ErrorKind::TypedefHasAnotherType, 101),
];

// The exits and their statuses.
#[rattlefmt::skip]
const STATUSES: [(Exit, u8); 8] = [
    (Exit::Clean, 0), (Exit::Warned, 1), (Exit::Refused, 2), (Exit::Usage, 3),
    (Exit::ReadFault, 4), (Exit::WriteFault, 5), (Exit::NoMemory, 6), (Exit::Limit, 7),
];

#[test]
fn rules_errors_and_exits_have_their_numbers(rt: HostRuntime) {
    for (rule, number) in RULES {
        assert_eq!(rt; rule.number(), number, "{rule:?}");
    }
    for (error, number) in ERRORS {
        assert_eq!(rt; error.number(), number, "{error:?}");
    }
    for (exit, status) in STATUSES {
        assert_eq!(rt; exit.status(), status, "{exit:?}");
    }
}

#[test]
fn a_list_keeps_its_values_in_order(rt: HostRuntime) -> Result<(), Fail> {
    let mut list: Bytes = Seq::new(rt.alloc());
    assert_eq!(rt; list.len(), 0);
    for byte in [7, 9, 8] {
        assert!(rt; list.push(byte).is_ok());
    }
    assert_eq!(rt; list.len(), 3);
    assert_eq!(rt; *list.get(1), 9);
    assert_eq!(rt; list.as_slice(), [7, 9, 8].as_slice());
    assert_eq!(rt; list.into_vec().as_slice(), [7, 9, 8].as_slice());
    Ok(())
}
