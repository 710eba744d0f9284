// Worked examples of what silence means: short texts, safe and unsafe. No code is called here.
ghost use Rattle.ksparse.specs.examples.SafeTexts.{SafeTextExamples};

use meaning_machine::{faults_are_unsafe, worked_runs};
use meaning_safety::clean_checks_are_safe;

/// Short texts, safe and unsafe.
pub fn worked_examples()
    ensures { SafeTextExamples }
{
    clean_checks_are_safe();
    faults_are_unsafe();
    worked_runs();
}
