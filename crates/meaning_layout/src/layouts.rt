// What is proved of layouts, and examples.
ghost use Rattle.meaning_layout.specs.laws.Layouts.{SizesAreMultiples, MembersLieInside, MembersStandApart, FieldsLieInUnits, MembersAreAligned, UnionsBeginAtOnce};
ghost use Rattle.meaning_layout.specs.laws.Sizes.{TypesAreWhole};
ghost use Rattle.meaning_layout.specs.laws.Repeats.{ArraysRepeat, OnceIsOne};
ghost use Rattle.meaning_layout.specs.examples.Layouts.{PlainExamples, FieldExamples, WrittenExamples, SizeExamples};
ghost use Rattle.meaning_layout.specs.examples.Sizes.{TypeExamples, MemberExamples};
ghost use Rattle.meaning_layout.specs.examples.Telling.{TellingExamples};
ghost use Rattle.meaning_layout.specs.examples.Members.{NameExamples};
ghost use Rattle.meaning_layout.specs.examples.Compared.{ComparedExamples};

/// A size is a multiple of the alignment, and members lie inside; in a structure no two of them share a
/// bit, in a union all begin with the first one; a bit-field lies in one unit of its declared type, and
/// another member at a multiple of its alignment.
pub fn layouts_are_sound()
    ensures multiples { SizesAreMultiples }
    ensures inside { MembersLieInside }
    ensures apart { MembersStandApart }
    ensures units { FieldsLieInUnits }
    ensures aligned { MembersAreAligned }
    ensures unions { UnionsBeginAtOnce }
{}

/// Where the layouts of aggregates are so, the size of a type is a multiple of its alignment, and no more than 2^40 bytes.
#[tactic(auto, using(crate::proofs::SizeLemmas::types_are_whole))]
pub fn sizes_are_whole()
    ensures { TypesAreWhole }
{}

/// An array of arrays is as large as so many of its innermost elements, and none is too large where none of its
/// arrays is.
#[tactic(auto, using(crate::proofs::RepeatLemmas::arrays_repeat, crate::proofs::RepeatLemmas::once_is_one))]
pub fn arrays_are_counted()
    ensures repeat { ArraysRepeat }
    ensures once { OnceIsOne }
{}

/// Bodies and types have the sizes, alignments and first bits that one can count.
pub fn worked_examples()
    ensures plain { PlainExamples }
    ensures fields { FieldExamples }
    ensures written { WrittenExamples }
    ensures sizes { SizeExamples }
    ensures types { TypeExamples }
    ensures members { MemberExamples }
    ensures telling { TellingExamples }
    ensures names { NameExamples }
{}

/// A thousand structures and unions have the sizes, the alignments and the first bits of named members that a compiler gives
/// them.
pub fn compared_examples()
    ensures { ComparedExamples }
{}
