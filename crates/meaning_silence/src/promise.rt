// The promise of silence.
ghost use Rattle.meaning_silence.specs.Laws.{FirstFormsInitializeNothing, JudgedTreesAreSafe, JudgedUnitsAreSafe, JudgementsAreWhole, RowsAreWhole, SilentUnitsAreSafe, UntoldUnitsAreSafe, WholeJudgementsAreJudgements};

/// The rows and the judgement of a unit that initializes nothing are those by the rules that know of no initializers; and the
/// judgement by these is its own, where it is laid and no structure lies in itself.
pub fn units_without_initializers_are_whole()
    ensures rows { RowsAreWhole }
    ensures judgements { JudgementsAreWhole }
    ensures converse { WholeJudgementsAreJudgements }
{}

/// A unit of the first form initializes nothing.
pub fn first_forms_initialize_nothing()
    ensures { FirstFormsInitializeNothing }
{}

/// No run of a unit of the first form meets a fault where no rule of the class of address spaces fails in the unit.
pub fn silent_units_are_safe()
    ensures { SilentUnitsAreSafe }
{}

/// Nor where the class is on and what is told of the unit is of classes that are off, or nothing is written of it.
pub fn judged_units_are_safe()
    ensures listing { JudgedUnitsAreSafe }
    ensures text { UntoldUnitsAreSafe }
{}

/// Nor one of a unit whose tree is in the first form but for the numbers that link its nodes, by the judgement of the nodes of this tree.
pub fn judged_trees_are_safe()
    ensures { JudgedTreesAreSafe }
{}
