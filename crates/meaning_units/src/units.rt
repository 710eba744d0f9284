// What is proved of the judgements of units.
ghost use Rattle.meaning_units.specs.Laws.{BrokenAreGathered, FailuresAreGathered, JudgementsAreUnique, JudgementsExist, RowsAreUnique, RowsExist};

/// In the same surroundings a unit has at most one list of rows, and has one where no structure lies in itself.
pub fn each_unit_has_one_list_of_rows()
    ensures unique { RowsAreUnique }
    ensures exist { RowsExist }
{}

/// What fails and breaks in a laid unit is what its nodes have.
pub fn units_have_what_their_nodes_have()
    ensures failures { FailuresAreGathered }
    ensures broken { BrokenAreGathered }
{}

/// A laid unit has at most one judgement, and has one where no structure lies in itself.
pub fn each_unit_has_one_judgement()
    ensures unique { JudgementsAreUnique }
    ensures exist { JudgementsExist }
{}
