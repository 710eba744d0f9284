// What is proved of what is told of a unit, and examples.
ghost use Rattle.meaning_rules.specs.examples.Units.{DeclarationExamples, RefusalExamples, StatementExamples};
ghost use Rattle.meaning_rules.specs.laws.Least.{LeastStandsFirst, LeastTokenIsFirst};

/// What is told first is one of the constraints that are broken and stands before all of them, and none is told only where
/// there are none; so of the tokens at which a limit is passed.
pub fn the_least_is_told()
    ensures broken { LeastStandsFirst }
    ensures passed { LeastTokenIsFirst }
{}

/// Short units of which one can tell by eye what fails in them and what they break.
pub fn worked_examples()
    ensures statements { StatementExamples }
    ensures refusals { RefusalExamples }
    ensures declarations { DeclarationExamples }
{}
