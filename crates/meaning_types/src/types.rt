// Examples of kinds and types, and what the tests of them tell.
ghost use Rattle.meaning_types.specs.laws.Types.{EqualKindsPass, EqualFlagsPass, SameTypesPass, NormalTypesStay, LevelsCommute, MixedSpacesPass, AtMostOneHolds, UsualCommutes, UsualIsAtLeastInt, UsualIsUnsigned};
ghost use Rattle.meaning_types.specs.examples.Types.{RangeExamples, SpellingExamples, LevelExamples, MixedExamples, UnmixedExamples};
ghost use Rattle.meaning_types.specs.examples.Derived.{ValueExamples, SameExamples, PointerExamples, MarkExamples, CompositeExamples, ConversionExamples, DerivedSpellings};

/// Kinds have the ranges of their widths, and single types are spelled, lose their qualifiers and
/// flags, and mix spaces as one can tell by eye.
pub fn worked_examples()
    ensures ranges { RangeExamples }
    ensures spellings { SpellingExamples }
    ensures levels { LevelExamples }
    ensures mixed { MixedExamples }
    ensures unmixed { UnmixedExamples }
{}

/// The same of arrays, functions, aggregates and restricted integers, and what integers become.
pub fn derived_examples()
    ensures values { ValueExamples }
    ensures same { SameExamples }
    ensures pointers { PointerExamples }
    ensures marks { MarkExamples }
    ensures composites { CompositeExamples }
    ensures conversions { ConversionExamples }
    ensures spellings { DerivedSpellings }
{}

/// The tests of equality pass for equal kinds, flags and types, and for no others.
pub fn equality_is_decided()
    ensures kinds { EqualKindsPass }
    ensures flags { EqualFlagsPass }
    ensures same { SameTypesPass }
{}

/// Whatever is taken from a normal type or added to it leaves it normal.
pub fn normal_types_stay()
    ensures normal { NormalTypesStay }
    ensures commute { LevelsCommute }
{}

/// Two pointers are tested for mixed spaces as these are defined; such pointers have no other targets.
pub fn pointers_are_decided()
    ensures mixed { MixedSpacesPass }
    ensures one { AtMostOneHolds }
{}

/// The order of two operands makes no difference to what they become, which is no narrower than an
/// int, and unsigned where an unsigned one is as wide.
pub fn usual_conversions()
    ensures commute { UsualCommutes }
    ensures least { UsualIsAtLeastInt }
    ensures unsigned { UsualIsUnsigned }
{}
