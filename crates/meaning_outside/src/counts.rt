// Examples of what stands outside: counts of faults, files, and what was loaded.
ghost use Rattle.meaning_outside.specs.examples.Outside.{AgreementExamples, FileExamples, RisenExamples, ToldExamples, TwoSinkExamples};

/// Counts rise, and calls tell of it, files are found, and agree with what was loaded, where one can tell so
/// by eye.
pub fn worked_examples()
    ensures risen { RisenExamples }
    ensures told { ToldExamples }
    ensures of_two { TwoSinkExamples }
    ensures files { FileExamples }
    ensures agreement { AgreementExamples }
{}
