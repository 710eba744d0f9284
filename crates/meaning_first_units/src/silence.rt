// What is proved of units of the first form.
ghost use Rattle.meaning_first_units.specs.Laws.{SilenceIsHandedOver, TreesOfTheFormAreUnits};
ghost use Rattle.meaning_first_units.specs.examples.Units.{UnitExamples};

/// Where no rule of the class of address spaces fails in a unit of the first form, by the rules of all units, none fails by those of
/// the form.
pub fn silence_is_handed_over()
    ensures { SilenceIsHandedOver }
{}

/// The nodes of a tree that is in the form without the numbers that link its nodes are a unit of the form, where each of its names is a
/// token's spelling and is linked with what declares it.
pub fn trees_of_the_form_are_units()
    ensures { TreesOfTheFormAreUnits }
{}

/// The nodes of a small file are a unit of its items, and those near them aren't.
pub fn worked_examples()
    ensures { UnitExamples }
{}
