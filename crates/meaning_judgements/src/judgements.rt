// What is proved of judgements.
ghost use Rattle.meaning_judgements.specs.Laws.{BrokenAreGathered, FailuresAreGathered, StatementsTellNoFacts, WholeFactsAreFound, WholeFactsAreUnique, WholeJudgementsAreUnique, WholeJudgementsExist};

/// What is known of a node its own row says: that of its statement adds what is broken and what fails.
pub fn statements_tell_no_facts()
    ensures { StatementsTellNoFacts }
{}

/// In the same surroundings a unit has exactly one list of facts.
pub fn each_unit_has_one_list_of_whole_facts()
    ensures unique { WholeFactsAreUnique }
    ensures found { WholeFactsAreFound }
{}

/// What fails and breaks in a laid unit is what its nodes have.
pub fn units_have_what_their_nodes_have()
    ensures failures { FailuresAreGathered }
    ensures broken { BrokenAreGathered }
{}

/// A laid unit has exactly one judgement.
pub fn each_unit_has_one_whole_judgement()
    ensures exist { WholeJudgementsExist }
    ensures unique { WholeJudgementsAreUnique }
{}
