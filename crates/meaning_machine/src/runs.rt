// The machine beside a plain program that plays its moves, and worlds worked out by hand.
ghost use Rattle.meaning_machine.specs.laws.Playing.{MovesArePlayed, PlayedIsRun, RunIsPlayed};
ghost use Rattle.meaning_machine.specs.examples.Rows.{CellExamples, FitExamples, LastExamples, RowExamples};
ghost use Rattle.meaning_machine.specs.examples.Steps.{StepExamples};
ghost use Rattle.meaning_machine.specs.examples.Activities.{OthersGoOn, ThirdMeetsFault, ThreeByTurns, ThreeInOrder};
ghost use Rattle.meaning_machine.specs.examples.Runs.{SpaceIsLost, NoderefIsAccessed, FlaggedIntIsLoaded, SilentUnitLeaves, SilentUnitEnds, SilentUnitCopies, NullIsUndefined, ForeignIsUndefined, ConstIsCopied, IndeterminateIsUndefined, ConstIsAdopted, AddressIsNoLvalue, StatementWithoutRowIsFault};

/// What the plain program plays is a run.
pub fn played_is_run()
    ensures { PlayedIsRun }
{}

/// Each move leads to the world that the plain program plays, so it plays each run.
pub fn run_is_played()
    ensures moves { MovesArePlayed }
    ensures run { RunIsPlayed }
{}

/// Small units, with runs that meet a fault, meet an undefined action or end; single rows, and nodes that
/// have none.
pub fn worked_runs()
    ensures space_lost { SpaceIsLost }
    ensures noderef_accessed { NoderefIsAccessed }
    ensures flagged_loaded { FlaggedIntIsLoaded }
    ensures silent_leaves { SilentUnitLeaves }
    ensures silent_ends { SilentUnitEnds }
    ensures silent_copies { SilentUnitCopies }
    ensures null_undefined { NullIsUndefined }
    ensures foreign_undefined { ForeignIsUndefined }
    ensures const_copied { ConstIsCopied }
    ensures indeterminate_undefined { IndeterminateIsUndefined }
    ensures const_adopted { ConstIsAdopted }
    ensures address_no_lvalue { AddressIsNoLvalue }
    ensures rowless_fault { StatementWithoutRowIsFault }
{}

/// Runs of three activities, one after another, by turns, and where the third meets a fault; and one that
/// goes on where another stands still.
pub fn worked_activities()
    ensures in_order { ThreeInOrder }
    ensures by_turns { ThreeByTurns }
    ensures third_meets { ThirdMeetsFault }
    ensures others_go_on { OthersGoOn }
{}

/// What fits a type, what single loads, stores and steps give,
/// and which blocks outlast others.
pub fn worked_rows()
    ensures rows { RowExamples }
    ensures cells { CellExamples }
    ensures fits { FitExamples }
    ensures last { LastExamples }
    ensures steps { StepExamples }
{}
