// What is proved of statements, labels and jumps, and examples.
ghost use Rattle.meaning_statements.specs.examples.Jumps.{GotoExamples, LoopExamples, SwitchExamples, TargetExamples};
ghost use Rattle.meaning_statements.specs.examples.Statements.{ConditionExamples, LabelExamples, NumberExamples, ReturnExamples, SwitchValueExamples};
ghost use Rattle.meaning_statements.specs.laws.Above.{NodesAboveComeDown};
ghost use Rattle.meaning_statements.specs.laws.Labels.{GotosHaveOneLabel};

/// In a laid unit the nodes above a part are the node whose part it is, and those above that one.
pub fn nodes_above_come_down()
    ensures { NodesAboveComeDown }
{}

/// Where no label is defined twice in a function, a `goto` has at most one label.
pub fn gotos_have_one_label()
    ensures { GotosHaveOneLabel }
{}

/// Jumps and labels of which one can tell by eye what they belong to and what they break.
pub fn worked_jumps()
    ensures targets { TargetExamples }
    ensures switches { SwitchExamples }
    ensures loops { LoopExamples }
    ensures gotos { GotoExamples }
{}

/// Statements of which one can tell by eye what they break and which rules fail at them.
pub fn worked_statements()
    ensures conditions { ConditionExamples }
    ensures values { SwitchValueExamples }
    ensures labels { LabelExamples }
    ensures numbers { NumberExamples }
    ensures returns { ReturnExamples }
{}
