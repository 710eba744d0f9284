// What a clean check promises.
ghost use Rattle.meaning_safety.specs.Laws.{CleanChecksAreSafe};

/// Where nothing is told of a unit no run of it meets a fault, if it is of the first form and its names are linked with what declares them.
pub fn clean_checks_are_safe()
    ensures { CleanChecksAreSafe }
{}
