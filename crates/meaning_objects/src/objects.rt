// What is proved of objects, and examples.
ghost use Rattle.meaning_objects.specs.examples.Carried.{ContextExamples, NoreturnExamples};
ghost use Rattle.meaning_objects.specs.examples.MemberPaths.{PathExamples};
ghost use Rattle.meaning_objects.specs.examples.Objects.{CalleeExamples, DefinitionExamples, ObjectExamples, ParameterExamples};
ghost use Rattle.meaning_objects.specs.laws.Callees.{ParenthesesAreTakenAway, ParenthesesDontCount};
ghost use Rattle.meaning_objects.specs.laws.Definitions.{DefinitionsDefine, ParametersAreCounted};
ghost use Rattle.meaning_objects.specs.laws.MemberPaths.{PathsAreFound};
ghost use Rattle.meaning_objects.specs.laws.Objects.{ContextsAreShared, DefinitionsAreShared, NoreturnIsShared, ObjectsAreShared, ObjectsAreTheirOwn, ObjectsComeFirst, ObjectsStay};

/// The declarations of one name with linkage have one object, the first of them, whatever is declared later; what is asked of
/// it may be asked of each of them.
pub fn declarations_share_an_object()
    ensures shared { ObjectsAreShared }
    ensures own { ObjectsAreTheirOwn }
    ensures first { ObjectsComeFirst }
    ensures stays { ObjectsStay }
    ensures definitions { DefinitionsAreShared }
    ensures contexts { ContextsAreShared }
    ensures noreturn { NoreturnIsShared }
{}

/// An expression in any number of parentheses is found, so a call names the same function without them.
pub fn callees_are_named()
    ensures found { ParenthesesAreTakenAway }
    ensures same { ParenthesesDontCount }
{}

/// What is found as a definition is one of the object, and a list has as many parameters as the type that it makes.
pub fn definitions_define()
    ensures definitions { DefinitionsDefine }
    ensures parameters { ParametersAreCounted }
{}

/// A path leads to each member that a name names.
pub fn paths_lead_to_members()
    ensures { PathsAreFound }
{}

/// Units of which one can tell by eye what their declarators declare, what is called, and where it is defined.
pub fn worked_objects()
    ensures objects { ObjectExamples }
    ensures callees { CalleeExamples }
    ensures definitions { DefinitionExamples }
    ensures parameters { ParameterExamples }
{}

/// Declarations of which one can tell by eye what they carry.
pub fn worked_carriers()
    ensures contexts { ContextExamples }
    ensures noreturn { NoreturnExamples }
{}

/// Bodies of which one can tell by eye where a name leads.
pub fn worked_paths()
    ensures { PathExamples }
{}
