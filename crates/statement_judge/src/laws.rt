// What holds of what is kept, for those who go over a unit.
ghost use Rattle.std.specs.Prelude.{List, ℕ};
ghost use Rattle.meaning_typing.specs.Facts.{Fact};
ghost use Rattle.meaning_typing.specs.Surroundings.{Surrounding};
ghost use Rattle.meaning_typing.specs.Units.{UnitNodes};
ghost use Rattle.statement_judge.specs.declared.statements.Statements.{Statements};
ghost use Rattle.statement_judge.specs.Later.{ComeLater};
ghost use Rattle.statement_judge.specs.Statements.{IsKeptOf};

/// What is kept stays kept where more nodes are known.
pub fn more_is_known_later()
    ensures { (nodes : UnitNodes) (surroundings : List Surrounding) (facts later : List Fact) (count : ℕ) (kept : Statements) → ComeLater nodes facts later → IsKeptOf nodes surroundings facts count kept → IsKeptOf nodes surroundings later count kept }
{}
