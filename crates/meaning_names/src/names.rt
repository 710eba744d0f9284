// What is proved of names, and examples of them.
ghost use Rattle.meaning_names.specs.examples.Names.{SpellingExamples, TypeNameExamples};
ghost use Rattle.meaning_names.specs.Laws.{FirstNamesAreTold, NamelessIsNamedNowhere, TypesWithoutNamedSpacesStay};

/// The name that is told of a tag or of a restricted type is given by a node of the unit, and by none before it; where none is told no
/// node gives one.
pub fn the_first_name_is_told()
    ensures told { FirstNamesAreTold }
    ensures nameless { NamelessIsNamedNowhere }
{}

/// Nothing but a named space is spelled in a type.
pub fn types_without_named_spaces_stay()
    ensures { TypesWithoutNamedSpacesStay }
{}

/// Small units with the names of their types, and types with the names of their spaces.
pub fn worked_examples()
    ensures spelled { SpellingExamples }
    ensures named { TypeNameExamples }
{}
