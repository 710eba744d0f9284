// What is proved of answers and outcomes, and examples of them.
ghost use Rattle.meaning_answer.specs.examples.Answers.{AnswerExamples, ExpandExamples, JudgementExamples, ParsingExamples, RequestExamples};
ghost use Rattle.meaning_answer.specs.examples.Completion.{CompletionExamples};
ghost use Rattle.meaning_answer.specs.laws.Answers.{EndingsTellWhatIsWritten, NamesAreSpelledBack, OutcomesAreTold, TokensAloneGoOut};
ghost use Rattle.meaning_answer.specs.laws.Balance.{CleanChecksAreBalanced};
ghost use Rattle.meaning_answer.specs.laws.Commands.{AnswersAreShaped, AnswersAreUnique, AnswersExist, AnswersTellFaults, PlainAnswersAreRight};

/// Each command has exactly one answer over given files, with the shape of what it asks for and of its ending, and it is
/// what the plain program answers. It is a usage line exactly where the words are at fault.
pub fn each_command_has_one_answer()
    ensures exist { AnswersExist }
    ensures unique { AnswersAreUnique }
    ensures plain { PlainAnswersAreRight }
    ensures shaped { AnswersAreShaped }
    ensures faults { AnswersTellFaults }
{}

/// Where a check tells nothing, the class of contexts being on, each path of a function that comes to an end has there the count of
/// contexts with which the function says that it is left.
pub fn clean_checks_are_balanced()
    ensures { CleanChecksAreBalanced }
{}

/// Small commands, from their words and files to their texts.
pub fn worked_examples()
    ensures answers { AnswerExamples }
    ensures judged { JudgementExamples }
    ensures parsing { ParsingExamples }
    ensures requests { RequestExamples }
    ensures expanded { ExpandExamples }
{}

/// Commands of no word, one and more, and what completes them.
pub fn worked_completions()
    ensures { CompletionExamples }
{}

/// What the sinks of a command have taken, by what it asks for and by its ending alone, whatever the files hold.
pub fn endings_tell_what_is_written()
    ensures tell { EndingsTellWhatIsWritten }
    ensures tokens { TokensAloneGoOut }
{}

/// The outcome by what loads gave and sinks took is that by what files and sinks tell, where they tell it.
pub fn outcomes_are_told()
    ensures { OutcomesAreTold }
{}

/// What is judged has numbers for names, and a text has the names that stand in the unit's tokens.
pub fn names_are_spelled_back()
    ensures { NamesAreSpelledBack }
{}
