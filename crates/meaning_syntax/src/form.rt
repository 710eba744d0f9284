// The grammar of the first form and its plain reader: they agree, and nothing is read in two ways.
ghost use Rattle.meaning_syntax.specs.examples.Trees.{TreeExamples};
ghost use Rattle.meaning_syntax.specs.examples.Units.{ReadExamples, MisspelledExamples, UnboundExamples, SpaceExamples};
ghost use Rattle.meaning_syntax.specs.laws.Form.{
  DerivedTreesAreInFirstForm,
  DerivedTreesAreThose,
  DerivedTreesAreUnique,
  ReadItemsAreSpelled,
  ReadUnitsAreUnits,
  ReadUnitsDerive,
  SpelledItemsAreRead,
  UnitsAreRead,
};

/// A list of spellings is at most one list of items, and at most one unit: what the plain reader finds.
pub fn each_token_list_is_at_most_one_unit()
    ensures items { ReadItemsAreSpelled }
    ensures items_again { SpelledItemsAreRead }
    ensures unit { ReadUnitsAreUnits }
    ensures unit_again { UnitsAreRead }
{}

/// A list of spellings derives one tree at most: that of the items which the plain reader finds.
pub fn each_token_list_derives_at_most_one_tree()
    ensures read { ReadUnitsDerive }
    ensures those { DerivedTreesAreThose }
    ensures unique { DerivedTreesAreUnique }
    ensures in_form { DerivedTreesAreInFirstForm }
{}

/// Files whose items one can tell by eye, and the nearest ones that are refused, are read as they should be.
pub fn worked_examples()
    ensures read { ReadExamples }
    ensures misspelled { MisspelledExamples }
    ensures unbound { UnboundExamples }
    ensures spaces { SpaceExamples }
    ensures trees { TreeExamples }
{}
