// What is proved of the failures of units, and examples of them.
ghost use Rattle.meaning_first_rules.specs.examples.Failures.{CheckedFileIsFirst, SpaceIsLost, SpaceBehindTwoStarsIsLost, TwoStarsMixSpaces, StarsAloneDoNotMix, NoderefIsAccessed, SpaceIsAccessed, NoderefIsToldBeforeSpace, LaterSpaceCounts, EqualFlagsPass, PlainIntsPass, NoderefIsStoredThrough, NoderefIsLostBehindPointer, LoadAloneWarns, AddressPasses};
ghost use Rattle.meaning_first_rules.specs.examples.Trees.{DeclarationExamples, ExpressionExamples};
ghost use Rattle.meaning_first_rules.specs.examples.Order.{OrderExamples};
ghost use Rattle.meaning_first_rules.specs.laws.Listings.{ListingsExist, ListingsAreUnique};

/// The failures of a unit can be listed in order in exactly one way.
pub fn each_unit_has_one_listing()
    ensures exist { ListingsExist }
    ensures unique { ListingsAreUnique }
{}

/// Small files, from their text to their warnings.
pub fn worked_examples()
    ensures space_lost { SpaceIsLost }
    ensures deeper_space_lost { SpaceBehindTwoStarsIsLost }
    ensures two_stars { TwoStarsMixSpaces }
    ensures stars_alone { StarsAloneDoNotMix }
    ensures noderef_accessed { NoderefIsAccessed }
    ensures space_accessed { SpaceIsAccessed }
    ensures noderef_told { NoderefIsToldBeforeSpace }
    ensures later_space { LaterSpaceCounts }
    ensures equal_flags { EqualFlagsPass }
    ensures plain_ints { PlainIntsPass }
    ensures stored_through { NoderefIsStoredThrough }
    ensures lost_behind_pointer { NoderefIsLostBehindPointer }
    ensures load_alone { LoadAloneWarns }
    ensures address { AddressPasses }
    ensures ordered { OrderExamples }
    ensures checked_file { CheckedFileIsFirst }
{}

/// Single declarations and expressions bind, read, write and convert what one can tell by eye.
pub fn worked_trees()
    ensures declarations { DeclarationExamples }
    ensures expressions { ExpressionExamples }
{}
