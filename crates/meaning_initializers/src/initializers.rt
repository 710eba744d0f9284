// What is proved of initializers, and examples.
ghost use Rattle.meaning_initializers.specs.examples.Leaves.{AggregateLeaves, ArrayLeaves};
ghost use Rattle.meaning_initializers.specs.examples.Nodes.{NodeExamples};
ghost use Rattle.meaning_initializers.specs.examples.Refusals.{DesignatorExamples, ExtraExamples, LeafExamples};
ghost use Rattle.meaning_initializers.specs.laws.Constants.{ConstantForms};
ghost use Rattle.meaning_initializers.specs.laws.Filling.{AnswersAreOutcomes, OutcomesAreUnique, OutcomesExist};
ghost use Rattle.meaning_initializers.specs.laws.Parts.{LeavesArePartsOfObjects};

/// An object is initialized in one way, where no structure lies in itself; what the plain program finds is that way.
pub fn each_initializer_has_one_outcome()
    ensures unique { OutcomesAreUnique }
    ensures exist { OutcomesExist }
    ensures found { AnswersAreOutcomes }
{}

/// The path of a leaf leads from the object to a part, and the leaf has the type of that part.
pub fn leaves_are_for_parts()
    ensures { LeavesArePartsOfObjects }
{}

/// Initializers of which one can tell by eye which parts they fill.
pub fn worked_leaves()
    ensures arrays { ArrayLeaves }
    ensures aggregates { AggregateLeaves }
{}

/// Initializers of which one can tell by eye what is refused in them.
pub fn worked_refusals()
    ensures extra { ExtraExamples }
    ensures designators { DesignatorExamples }
    ensures leaves { LeafExamples }
{}

/// Nodes of which one can tell by eye which initializer they are, and which of them a static object may begin with.
pub fn worked_nodes()
    ensures { NodeExamples }
{}

/// A cast, a choice and an address are constant where those of their parts are that have to be.
pub fn constants_stay_constant()
    ensures { ConstantForms }
{}
