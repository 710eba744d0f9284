// What is proved of typing, and examples.
ghost use Rattle.meaning_typing.specs.examples.Declared.{BodyExamples, CompleteMemberExamples, MemberListExamples, TagExamples, UseExamples, WidthExamples};
ghost use Rattle.meaning_typing.specs.examples.DeclarationRows.{CompletenessExamples, DeclarationFailures, InitializerExamples, PartExamples, SizeExamples};
ghost use Rattle.meaning_typing.specs.examples.EnumRows.{EnumerationRowExamples, EnumeratorExamples};
ghost use Rattle.meaning_typing.specs.examples.Enumerations.{EnumerationExamples};
ghost use Rattle.meaning_typing.specs.examples.Members.{MemberAccesses, MemberConstraints, MemberTypes, WholeConstraints};
ghost use Rattle.meaning_typing.specs.examples.OffsetRows.{OffsetRowExamples};
ghost use Rattle.meaning_typing.specs.examples.Offsets.{OffsetExamples};
ghost use Rattle.meaning_typing.specs.examples.Operators.{AddressExamples, CastFailures, ForceExamples, MeetingFailures, OperandConstraints, RestrictedFailures, TypeExamples};
ghost use Rattle.meaning_typing.specs.examples.Operations.{OperationExamples};
ghost use Rattle.meaning_typing.specs.examples.Rows.{ConstraintExamples, FailureExamples};
ghost use Rattle.meaning_typing.specs.examples.Typing.{FactExamples, SurroundingExamples};
ghost use Rattle.meaning_typing.specs.laws.Equality.{EqualTypesPass};
ghost use Rattle.meaning_typing.specs.laws.Members.{AnonymousMembersAreSteps, ArrowIsDotOfStar};
ghost use Rattle.meaning_typing.specs.laws.Surroundings.{SurroundingsAreFound, SurroundingsAreUnique};
ghost use Rattle.meaning_typing.specs.laws.Words.{NeighboursMaySwap};

/// The test of types passes for equal types, and for no others.
#[tactic(auto, using(crate::proofs::Equality::equal_types_pass))]
pub fn equality_is_decided()
    ensures { EqualTypesPass }
{}

/// A unit whose nodes make one tree, each behind its parts, has exactly one list of surroundings.
pub fn each_unit_has_one_list_of_surroundings()
    ensures unique { SurroundingsAreUnique }
    ensures found { SurroundingsAreFound }
{}

/// Whatever specifier words stand among, two of them that are neighbours may change places.
pub fn words_stand_in_any_order()
    ensures { NeighboursMaySwap }
{}

/// Units of which one can tell by eye what their nodes stand in and what is known of them.
pub fn worked_examples()
    ensures surroundings { SurroundingExamples }
    ensures facts { FactExamples }
    ensures offsets { OffsetExamples }
{}

/// Statements of which one can tell by eye what fails in them and what they break.
pub fn worked_rows()
    ensures failures { FailureExamples }
    ensures constraints { ConstraintExamples }
{}

/// Enumerations of which one can tell by eye whether their enumerators share a restricted type.
pub fn worked_enumerations()
    ensures { EnumerationExamples }
{}

/// Operators, conditionals, casts and sizes of which one can tell by eye what they give, what fails at them and what they break.
pub fn worked_operators()
    ensures types { TypeExamples }
    ensures addresses { AddressExamples }
    ensures meetings { MeetingFailures }
    ensures restricted { RestrictedFailures }
    ensures casts { CastFailures }
    ensures forces { ForceExamples }
    ensures constraints { OperandConstraints }
{}

/// Statements with operators over a place of another space, of which one can tell by eye what is loaded and what it gives.
pub fn worked_operations()
    ensures { OperationExamples }
{}

/// Members of places and values, and whole objects of aggregate type as operands, of which one can tell by eye what they give and break.
pub fn worked_members()
    ensures types { MemberTypes }
    ensures accesses { MemberAccesses }
    ensures constraints { MemberConstraints }
    ensures wholes { WholeConstraints }
    ensures offsets { OffsetRowExamples }
{}

/// Enumerators and enumerations of which one can tell by eye their constants, their types and what they break.
pub fn worked_enumeration_rows()
    ensures enumerators { EnumeratorExamples }
    ensures enumerations { EnumerationRowExamples }
{}

/// Bodies of structures and unions, and tags, of which one can tell by eye what they declare and break.
pub fn worked_bodies()
    ensures widths { WidthExamples }
    ensures complete { CompleteMemberExamples }
    ensures members { MemberListExamples }
    ensures layouts { BodyExamples }
    ensures tags { TagExamples }
    ensures uses { UseExamples }
{}

/// Declarators and declarations of which one can tell by eye what they break, and which rules fail at their names.
pub fn worked_declarations()
    ensures sizes { SizeExamples }
    ensures parts { PartExamples }
    ensures completeness { CompletenessExamples }
    ensures failures { DeclarationFailures }
    ensures initializers { InitializerExamples }
{}

/// `x->a` says what `(*x).a` says, and a member of an anonymous member has the type that it has behind two steps.
pub fn members_are_selected()
    ensures arrow { ArrowIsDotOfStar }
    ensures anonymous { AnonymousMembersAreSteps }
{}
