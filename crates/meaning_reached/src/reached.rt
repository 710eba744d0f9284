// That the rules on contexts have an answer, and an example.
ghost use Rattle.meaning_reached.specs.laws.Answers.{BodiesHaveAnAnswer, FunctionsHaveAnAnswer, GraphsHaveAnAnswer};
ghost use Rattle.meaning_reached.specs.examples.Loops.{LoopExample};

/// The paths of a function have an answer, whatever counts it is entered and left with. So have those of a body in which what
/// calls pass begins with a point, and of a graph in which what blocks pass does.
pub fn control_paths_have_an_answer()
    ensures graphs { GraphsHaveAnAnswer }
    ensures bodies { BodiesHaveAnAnswer }
    ensures functions { FunctionsHaveAnAnswer }
{}

/// A loop that acquires once a turn.
pub fn worked_examples()
    ensures { LoopExample }
{}
