//! All pairs of some types and of some operands, against a second list of decisions, from the wording of the rules.
//!
//! What a conversion, an access and an operator say is defined in `meaning_operands`, and decided here once more in other
//! words. A pair is computed, so that it costs no code and no run. Start reading at `specs/examples/Conversions.antt`.
#![tactic(auto)]

ghost use Rattle.meaning_pairs.specs.examples.Conversions.{PairsConvert};
ghost use Rattle.meaning_pairs.specs.examples.Operators.{PairsMeet};

/// Each type, as a value or a place, becomes each other one as the rules say.
pub fn pairs_convert()
    ensures { PairsConvert }
{}

/// Each operator says of two operands what the rules say.
pub fn pairs_meet()
    ensures { PairsMeet }
{}
