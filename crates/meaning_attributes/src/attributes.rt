// What is proved of attribute lists: how they are cut, and examples.
ghost use Rattle.meaning_attributes.specs.laws.Pieces.{PiecesAreJoined, PiecesArePieces, PiecesAreThose};
ghost use Rattle.meaning_attributes.specs.examples.Attributes.{SpaceExamples, ContextExamples, AlignExamples, ListExamples, ExtensionExamples, ItemExamples};
ghost use Rattle.meaning_attributes.specs.examples.Contexts.{StatementExamples};

/// The pieces of a list, with commas between, make it up; where its parentheses pair up, no piece has a
/// comma outside of them, and no other pieces are such.
pub fn lists_are_cut_in_one_way()
    ensures joined { PiecesAreJoined }
    ensures pieces { PiecesArePieces }
    ensures unique { PiecesAreThose }
{}

/// Short lists come to the attributes, or the refusals, that one can tell by eye.
pub fn worked_examples()
    ensures spaces { SpaceExamples }
    ensures contexts { ContextExamples }
    ensures aligns { AlignExamples }
    ensures lists { ListExamples }
    ensures extensions { ExtensionExamples }
    ensures items { ItemExamples }
    ensures statements { StatementExamples }
{}
