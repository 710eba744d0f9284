// What holds of the rows of this crate.
ghost use Rattle.specifier_judge.specs.Worked.{WorkedRows};

/// Worked examples of rows.
pub fn worked_rows()
    ensures { WorkedRows }
{}
