// What is proved of operands, and the examples that hold of them.
ghost use Rattle.meaning_operands.specs.laws.Operators.{OperatorFacts};
ghost use Rattle.meaning_operands.specs.laws.Conversions.{SameTypesConvert};
ghost use Rattle.meaning_operands.specs.examples.Operators.{OperatorExamples, FoulExamples, PointerExamples};
ghost use Rattle.meaning_operands.specs.examples.Conversions.{PointerConversions, IntegerConversions, OtherConversions};

/// Over all operators: which test, that none which asks for one type gives the base of it, and that what is stored or
/// tested is never fouled behind it.
pub fn each_operator_keeps_its_law()
    ensures { OperatorFacts }
{}

/// A value becomes a value of the same type without a failure.
pub fn same_types_convert()
    ensures { SameTypesConvert }
{}

/// Operands and conversions that one can tell by eye.
pub fn worked_examples()
    ensures operators { OperatorExamples }
    ensures fouled { FoulExamples }
    ensures beside_pointers { PointerExamples }
    ensures pointers { PointerConversions }
    ensures integers { IntegerConversions }
    ensures others { OtherConversions }
{}
