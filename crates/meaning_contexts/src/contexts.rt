// What is proved of failures on paths.
ghost use Rattle.meaning_contexts.specs.Laws.{ContextFailuresAreOfOneClass, ContextFailuresAreUnique, ContextFailuresExist, FailuresOnPathsAreGathered, UnitsWithoutContextsFailNowhere, UntoldFunctionsBalance};
ghost use Rattle.meaning_contexts.specs.examples.Failures.{FailureExamples};

/// A unit that was judged has one list of failures on paths.
pub fn each_unit_has_one_list_of_failures()
    ensures exist { ContextFailuresExist }
    ensures unique { ContextFailuresAreUnique }
{}

/// What fails on some path of a unit is what its functions have.
pub fn paths_have_what_functions_have()
    ensures { FailuresOnPathsAreGathered }
{}

/// Where nothing fails on the paths of a unit, each path of a function that comes to an end has there the count with which the function
/// says that it is left. What fails on paths is of the class of contexts.
pub fn untold_functions_balance()
    ensures balance { UntoldFunctionsBalance }
    ensures class { ContextFailuresAreOfOneClass }
{}

/// Nothing fails on the paths of a unit that has neither a context attribute nor a context statement.
pub fn units_without_contexts_fail_nowhere()
    ensures { UnitsWithoutContextsFailNowhere }
{}

/// What is told of the answers over the paths of a function.
pub fn worked_examples()
    ensures { FailureExamples }
{}
