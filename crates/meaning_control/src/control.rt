// What is proved of control, and examples.
ghost use Rattle.meaning_control.specs.laws.Changes.{BodiesWithoutChanges, FunctionsWithoutContexts, NoChangeNoFailure};
ghost use Rattle.meaning_control.specs.laws.Flows.{FlowsHaveThePaths};
ghost use Rattle.meaning_control.specs.laws.Listing.{ListedPathsArePaths};
ghost use Rattle.meaning_control.specs.examples.Conditions.{ConditionExamples, ValueExamples};
ghost use Rattle.meaning_control.specs.examples.Flows.{FlowExample};
ghost use Rattle.meaning_control.specs.examples.Statements.{JumpExamples, LoopExamples, SwitchExamples};

use meaning_paths::PathSet;

/// A flow whose tables and blocks keep the equations of a body has exactly its paths.
pub fn flows_have_the_paths()
    ensures { FlowsHaveThePaths }
{}

/// Where no path has a change or a call with contexts, and what is left with is what is entered with, paths are balanced.
pub fn paths_without_changes_balance<P: PathSet>()
    ensures { NoChangeNoFailure P.is_path }
{}

/// No path of a body has a change of which no node is a context statement or a call of a function with contexts.
pub fn bodies_without_changes_pass_none()
    ensures { BodiesWithoutChanges }
{}

/// Such is the body of a function of which no node is a context statement or a call by name of a function with contexts.
pub fn functions_without_contexts_change_nothing()
    ensures { FunctionsWithoutContexts }
{}

/// Each path that is listed is one.
pub fn listed_paths_are_paths()
    ensures { ListedPathsArePaths }
{}

/// Small functions, and each of their paths.
pub fn worked_examples()
    ensures conditions { ConditionExamples }
    ensures values { ValueExamples }
    ensures loops { LoopExamples }
    ensures switches { SwitchExamples }
    ensures jumps { JumpExamples }
{}

/// A flow that keeps the equations of its body, cell by cell.
pub fn worked_flow()
    ensures { FlowExample }
{}
