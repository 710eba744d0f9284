// What holds of the rows of this crate, for those who ask rows by kinds.
ghost use Rattle.std.specs.Prelude.{List, ℕ};
ghost use Rattle.meaning_typing.specs.Aggregates.{KnownAggregates};
ghost use Rattle.meaning_typing.specs.Facts.{Fact};
ghost use Rattle.meaning_typing.specs.Surroundings.{Surrounding};
ghost use Rattle.meaning_typing.specs.Units.{UnitNodes};
ghost use Rattle.declaration_judge.specs.Rows.{AreRowsOf};

/// They are those that the definition tells by kinds.
pub fn rows_are_told_by_kinds()
    ensures { (aggregates : KnownAggregates) (nodes : UnitNodes) (surroundings : List Surrounding) (facts : List Fact) (handle : ℕ) → AreRowsOf aggregates nodes surroundings facts handle }
{}
