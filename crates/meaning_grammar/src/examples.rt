// Examples of what the table chooses, and of words.
ghost use Rattle.meaning_grammar.specs.examples.Choices.{ChoiceExamples, PlainExamples};
ghost use Rattle.meaning_grammar.specs.examples.Words.{TerminalExamples, WordExamples};

/// Rows that two tokens choose, and how words are read, as one can tell by eye.
pub fn worked_examples()
    ensures choices { ChoiceExamples }
    ensures plain { PlainExamples }
    ensures words { WordExamples }
    ensures terminals { TerminalExamples }
{}
