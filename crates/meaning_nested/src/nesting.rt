// What is proved of units, whatever is written.
ghost use Rattle.meaning_nested.specs.Nested.{EachUnitHasOneJudgement, EachUnitIsNested};

/// No structure or union of a laid unit lies in itself (C11 6.7.2.1 p3).
pub fn each_unit_is_nested()
    ensures { EachUnitIsNested }
{}

/// A laid unit has a judgement, and no other one.
pub fn each_unit_has_one_judgement()
    ensures { EachUnitHasOneJudgement }
{}
