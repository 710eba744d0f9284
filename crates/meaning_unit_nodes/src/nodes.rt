// What is proved of the nodes of units.
ghost use Rattle.meaning_unit_nodes.specs.Laws.{NamesStayLinked, NodesAreLaid, NodesStandBehindTheirParts, NodesStandForTheirTree, NumbersTellApart, OnlyNamesChange};
ghost use Rattle.meaning_unit_nodes.specs.examples.Units.{UnitExamples};

/// The nodes of a tree stand for it, each tree in it has one run of them, each stands behind its parts, and numbers stand for names alone.
pub fn nodes_stand_for_their_tree()
    ensures stand { NodesStandForTheirTree }
    ensures laid { NodesAreLaid }
    ensures behind { NodesStandBehindTheirParts }
    ensures named { OnlyNamesChange }
{}

/// Different spellings of a unit's tokens have different numbers.
pub fn numbers_tell_spellings_apart()
    ensures { NumbersTellApart }
{}

/// A name that is linked with what declares it stays so where names are spelled otherwise.
pub fn names_stay_linked<Spelling>()
    ensures { NamesStayLinked Spelling }
{}

/// The nodes of a declaration and of a declarator that one can list by eye, and the numbers of a few names.
pub fn worked_examples()
    ensures { UnitExamples }
{}
