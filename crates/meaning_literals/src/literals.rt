// What is proved of literals: their elements, their numbers, and examples.
ghost use Rattle.meaning_literals.specs.examples.Literals.{IntegerExamples, KindExamples, SuffixExamples, CharacterExamples, StringExamples};
ghost use Rattle.meaning_literals.specs.laws.Literals.{DecimalsAreRead, ElementsAreThose, TextsAreMadeOfElements};

/// What stands between the quotation marks is made of one list of elements, as the grammar spells them.
pub fn each_text_is_made_of_its_elements()
    ensures exist { TextsAreMadeOfElements }
    ensures unique { ElementsAreThose }
{}

/// A number that is written in decimal is read as that number, of the first kind that holds it.
pub fn decimals_are_read()
    ensures { DecimalsAreRead }
{}

/// Short literals have the values, or the faults, that one can tell by eye.
pub fn worked_examples()
    ensures integers { IntegerExamples }
    ensures kinds { KindExamples }
    ensures suffixes { SuffixExamples }
    ensures characters { CharacterExamples }
    ensures strings { StringExamples }
{}
