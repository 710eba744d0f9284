// What is proved of texts, and the examples that hold of them.
ghost use Rattle.meaning_warnings.specs.examples.Errors.{ErrorExamples};
ghost use Rattle.meaning_warnings.specs.examples.Listings.{ListingExamples, OrderExamples};
ghost use Rattle.meaning_warnings.specs.examples.Types.{TypeExamples};
ghost use Rattle.meaning_warnings.specs.examples.Warnings.{OtherExamples, PositionExamples, RestrictedExamples, SpaceExamples};
ghost use Rattle.meaning_warnings.specs.laws.Listings.{ListingsAreUnique, ListingsExist, TextsAreUnique};

/// Whatever failures were found, they have one order and one text.
pub fn each_unit_has_one_text()
    ensures exist { ListingsExist }
    ensures unique { ListingsAreUnique }
    ensures one_text { TextsAreUnique }
{}

/// Types, the lines of each rule and of each error, and the order of failures, as one can tell by eye.
pub fn worked_examples()
    ensures types { TypeExamples }
    ensures positions { PositionExamples }
    ensures spaces { SpaceExamples }
    ensures restricted { RestrictedExamples }
    ensures others { OtherExamples }
    ensures errors { ErrorExamples }
    ensures ordered { OrderExamples }
    ensures units { ListingExamples }
{}
