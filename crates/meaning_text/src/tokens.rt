// What is proved of texts and their tokens, and examples of them.
ghost use Rattle.meaning_text.specs.examples.Tokens.{LogicalExamples, SpellingExamples, TextExamples, FaultExamples, TableFacts};
ghost use Rattle.meaning_text.specs.laws.Tokens.{TokensExist, TokensAreUnique, FaultsExist, FaultsAreUnique, EachTextHasOneAnswer, LogicalTextsEndTheirLine};

/// A text has one list of tokens, or else it has one fault, at the first opening that is never
/// closed. The plain function computes which.
pub fn each_text_has_one_answer()
    ensures tokens { TokensExist }
    ensures no_other_tokens { TokensAreUnique }
    ensures fault { FaultsExist }
    ensures no_other_fault { FaultsAreUnique }
    ensures one_answer { EachTextHasOneAnswer }
{}

/// A missing last new-line is supplied.
pub fn logical_texts_end_their_line()
    ensures { LogicalTextsEndTheirLine }
{}

/// Short texts have the tokens, or the fault, that one can tell by eye.
pub fn worked_examples()
    ensures logical { LogicalExamples }
    ensures spellings { SpellingExamples }
    ensures texts { TextExamples }
    ensures faults { FaultExamples }
    ensures table { TableFacts }
{}
