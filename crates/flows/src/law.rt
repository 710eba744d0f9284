// What is written is read back.
ghost use Rattle.flows.specs.Written.{LinesAreReadBack};

/// A flow that has a block, with the counts of its function, is read back from the line in which `control_flow` writes it.
pub fn lines_are_read_back()
    ensures { LinesAreReadBack }
{}
