// What is proved of paths and their rules, and examples.
ghost use Rattle.meaning_paths.specs.laws.Rules.{BalancedPathsBalance, HasOneAnswer, HaveEqualAnswers};
ghost use Rattle.meaning_paths.specs.laws.Walks.{FrontsArePaths};
ghost use Rattle.meaning_paths.specs.examples.Loops.{LoopExamples, JoinExamples};
ghost use Rattle.meaning_paths.specs.examples.Calls.{CallExamples};

/// Any set of paths, for laws to speak of. Nothing has to be a value of such a type.
pub trait PathSet {
    ghost use Rattle.std.specs.Prelude.{List};
    ghost use Rattle.meaning_paths.specs.Steps.{Step};

    /// The path is in the set.
    ghost is_path: { List Step → Type 0 };
}

/// A set of paths has one answer, and one that has the same paths has the same.
pub fn sets_of_paths_have_one_answer<P: PathSet, Q: PathSet>()
    ensures one { HasOneAnswer P.is_path }
    ensures equal { HaveEqualAnswers P.is_path Q.is_path }
{}

/// Where paths are balanced, each one that reaches an end comes to it with the count that is to be left with.
pub fn balanced_paths_leave_as_they_should<P: PathSet>()
    ensures { BalancedPathsBalance P.is_path }
{}

/// What stands before the last step of a walk's path is the path of a walk, whatever the places of it are.
pub fn fronts_of_paths_are_paths<S>()
    ensures { FrontsArePaths S }
{}

/// A loop that acquires once a turn, on two turns, two ways that meet, and calls, by hand.
pub fn worked_examples()
    ensures loops { LoopExamples }
    ensures joins { JoinExamples }
    ensures calls { CallExamples }
{}
