// What is proved of constants, and examples.
ghost use Rattle.meaning_constants.specs.laws.Numbers.{ConversionsAreInRange, ConversionsKeepNumbers, ConversionsWrap};
ghost use Rattle.meaning_constants.specs.laws.Wrapping.{ConversionsCompose, OperatorsNarrowOnce, OperatorsWrapOnce};
ghost use Rattle.meaning_constants.specs.laws.Constants.{ConstantsAreInRange};
ghost use Rattle.meaning_constants.specs.laws.Nodes.{BitsTellNumbers, NodeConstantsFit};
ghost use Rattle.meaning_constants.specs.examples.Numbers.{ConversionExamples};
ghost use Rattle.meaning_constants.specs.examples.Wrapping.{WaysThatCount};
ghost use Rattle.meaning_constants.specs.examples.Constants.{OperatorExamples, EvaluationExamples, CastExamples, FoulExamples};
ghost use Rattle.meaning_constants.specs.examples.Enumerators.{EnumeratorExamples};
ghost use Rattle.meaning_constants.specs.examples.Compared.{ComparedExamples};
ghost use Rattle.meaning_constants.specs.examples.Nodes.{KeptExamples, NodeExamples, SizeExamples};

/// A number that is converted to an integer type becomes the one number of it that differs by a multiple
/// of how many it has, so itself where the type has it; in `_Bool` it becomes 0 or 1 (6.3.1.2, 6.3.1.3).
#[tactic(auto, using(crate::proofs::Numbers::converted_is_in_range, crate::proofs::Numbers::converted_is_kept, crate::proofs::Numbers::converted_is_apart))]
pub fn numbers_are_converted()
    ensures in_range { ConversionsAreInRange }
    ensures kept { ConversionsKeepNumbers }
    ensures wrapped { ConversionsWrap }
{}

/// Sums, differences, products, shifts to the left and bits are the same of operands that were wrapped first (6.2.5 p9), and of
/// the common kind and of a narrower one to which the result is wrapped (6.3.1.8); a number that is converted twice is
/// converted at once (6.3.1.3). Of the other operators there are numbers that tell the ways apart.
pub fn wrapping_commutes()
    ensures before { OperatorsWrapOnce }
    ensures composed { ConversionsCompose }
    ensures behind { OperatorsNarrowOnce }
    ensures others { WaysThatCount }
{}

/// The number of a constant is one of its kind; that of a fouled one is one of the promoted kind.
#[tactic(auto, using(crate::proofs::Ranges::constants_are_in_range))]
pub fn constants_are_in_range()
    ensures { ConstantsAreInRange }
{}

/// The number of a node's constant is one of its promoted kind where those of its parts are, so that its kind and 64 bits
/// tell it.
#[tactic(auto, using(crate::proofs::Nodes::node_constants_fit, crate::proofs::Bits::bits_tell_numbers))]
pub fn node_constants_are_kept()
    ensures fit { NodeConstantsFit }
    ensures told { BitsTellNumbers }
{}

/// Nodes whose constants one can tell by eye, from what is known of their parts.
pub fn worked_nodes()
    ensures nodes { NodeExamples }
    ensures sizes { SizeExamples }
    ensures kept { KeptExamples }
{}

/// Numbers, expressions and enumerators whose constants one can tell by eye.
pub fn worked_examples()
    ensures conversions { ConversionExamples }
    ensures operators { OperatorExamples }
    ensures evaluated { EvaluationExamples }
    ensures casts { CastExamples }
    ensures fouled { FoulExamples }
    ensures enumerators { EnumeratorExamples }
{}

/// Two thousand expressions have the types and the values that a compiler gives them, or no value where it finds that one
/// divides by 0 or shifts by a count outside the width.
pub fn compared_examples()
    ensures { ComparedExamples }
{}
