// That the machine can go on: which moves each world has.
ghost use Rattle.meaning_machine.specs.laws.Runs.{ActivitiesEnd, ActivitiesGoOn, FunctionsStart, NamesDesignate, ObjectsAreWritten, RunsBegin};

/// There are runs. Whatever world is reached, each function can be called again, each activity takes its
/// next step unless this is undefined or a fault, and each fitting value can be written into each object,
/// which has it afterwards, where the object's name is read.
pub fn moves_are_possible()
    ensures opening { RunsBegin }
    ensures calls { FunctionsStart }
    ensures steps { ActivitiesGoOn }
    ensures ends { ActivitiesEnd }
    ensures writes { ObjectsAreWritten }
    ensures names { NamesDesignate }
{}
