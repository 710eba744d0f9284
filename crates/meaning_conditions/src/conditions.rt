// What is proved of the values of `#if`.
ghost use Rattle.meaning_conditions.specs.laws.Conditions.{ListsAreOneTree, AnswersExist, AnswersAreThose, FrontsGoOn, LongerFrontsEnd};
ghost use Rattle.meaning_conditions.specs.laws.ZeroDivisors.{ToldDivisorIsFirst, ValuesDivideByNone};
ghost use Rattle.meaning_conditions.specs.examples.Conditions.{GroupingExamples, OperatorExamples, TypeExamples, NumberExamples, ZeroExamples, WrongExamples};

/// A list of tokens is one expression at most, so its value is told by the outermost operator of each part.
pub fn each_list_is_at_most_one_tree()
    ensures { ListsAreOneTree }
{}

/// A list of tokens has exactly one of a value, a bad index and a zero divisor: what the plain program finds.
pub fn each_list_has_one_answer()
    ensures exist { AnswersExist }
    ensures unique { AnswersAreThose }
{}

/// The fronts of a list that goes on to some expression are those that end at its bad index or before.
pub fn fronts_go_on_up_to_the_bad_index()
    ensures shorter { FrontsGoOn }
    ensures longer { LongerFrontsEnd }
{}

/// The zero divisor that is told is the first among those that are evaluated; behind a value there is none.
pub fn the_first_zero_divisor_is_told()
    ensures first { ToldDivisorIsFirst }
    ensures none { ValuesDivideByNone }
{}

/// Short lists have the values, or the indices at which they fail, that one can tell by eye.
pub fn worked_examples()
    ensures grouping { GroupingExamples }
    ensures operators { OperatorExamples }
    ensures types { TypeExamples }
    ensures numbers { NumberExamples }
    ensures zeros { ZeroExamples }
    ensures wrong { WrongExamples }
{}
