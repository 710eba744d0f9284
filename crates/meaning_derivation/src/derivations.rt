// What is proved of derivations, and the examples that hold of them.
ghost use Rattle.meaning_derivation.specs.laws.Outcomes.{ItemsHaveOneOutcome, UnitsHaveOneOutcome, UnitsHaveAnOutcome, AnswersAreOutcomes};
ghost use Rattle.meaning_derivation.specs.laws.Sorts.{ActionsAreSorted, ActionsLeadOn};
ghost use Rattle.meaning_derivation.specs.laws.Shapes.{ShapesAreMade};
ghost use Rattle.meaning_derivation.specs.laws.Storage.{ClassesHaveNumbers, SpecifiersHaveTheirClass};
ghost use Rattle.meaning_derivation.specs.examples.Literals.{ContextExamples, LiteralExamples};
ghost use Rattle.meaning_derivation.specs.examples.Units.{NameExamples, TreeExamples, BodyExamples, BindExamples, HidingExamples, ChainExamples, RefusalExamples};
ghost use Rattle.meaning_derivation.specs.examples.Tags.{TagExamples};
ghost use Rattle.meaning_derivation.specs.examples.Specifiers.{SetExamples, SpecifierExamples, WordExamples, PlaceExamples, FunctionExamples};

/// A list of tokens has one outcome at most, whatever the actions do, and with those of C it has one: a tree or a refusal.
pub fn each_unit_has_one_outcome()
    ensures items { ItemsHaveOneOutcome }
    ensures units { UnitsHaveOneOutcome }
    ensures exist { UnitsHaveAnOutcome }
{}

/// What the plain program answers is the outcome.
pub fn answers_are_outcomes()
    ensures { AnswersAreOutcomes }
{}

/// An action that goes on leaves values of the sorts that the grammar's table says, so that what follows finds what it takes.
pub fn actions_leave_their_sorts()
    ensures sorted { ActionsAreSorted }
    ensures lead_on { ActionsLeadOn }
{}

/// Each action that is a row of the table of shapes makes that row's node.
pub fn shapes_are_made()
    ensures { ShapesAreMade }
{}

/// A node of specifiers has the storage class of its parts.
pub fn specifiers_have_their_class()
    ensures numbers { ClassesHaveNumbers }
    ensures nodes { SpecifiersHaveTheirClass }
{}

/// Short units derive the trees, or are refused for what, that one can tell by eye.
pub fn worked_examples()
    ensures names { NameExamples }
    ensures trees { TreeExamples }
    ensures bodies { BodyExamples }
    ensures binds { BindExamples }
    ensures hiding { HidingExamples }
    ensures chains { ChainExamples }
    ensures refusals { RefusalExamples }
    ensures sets { SetExamples }
    ensures specifiers { SpecifierExamples }
    ensures words { WordExamples }
    ensures places { PlaceExamples }
    ensures functions { FunctionExamples }
    ensures literals { LiteralExamples }
    ensures contexts { ContextExamples }
    ensures tags { TagExamples }
{}
