// The outermost call, and all that is promised of it: first the answer in memory, then the writes.
ghost use Rattle.std.specs.Prelude.{◌≡◌, ◌⊎◌, IfSome};
ghost use Rattle.meaning_outside.specs.Faults.{Rose, Told, ToldOfTwo};
ghost use Rattle.meaning_outside.specs.Files.{FileMap};
ghost use Rattle.meaning_outside.specs.Loads.{AgreesWith, EachPathIsLoadedOnce, LoadsStay, loads_since};
ghost use Rattle.meaning_answer.specs.Delivery.{Completes, IsOutcome};
ghost use Rattle.ksparse.specs.Balanced.{IsBalancedIfClean};
ghost use Rattle.ksparse.specs.Ending.{ending_seen};
ghost use Rattle.ksparse.specs.Safe.{IsSafeIfClean};
ghost use Rattle.ksparse.specs.Sinks.{TellsWhatItTook};

use crate::answer::{Stop, answer};
use crate::exit::Exit;
use crate::write::deliver;
use meaning_outside::loads_of_each_path_once_agree;
use sparse_outside::{Files, Sink, Words};
use std::alloc::Global;

/// Does what the words say, writes the answer to `out` and `err`, and says how it ended.
///
/// What it says is said of what its loads gave and of what its sinks took, whatever these tell besides. All
/// texts are built before the first write, and writing takes no memory.
pub fn ksparse<F: Files, O: Sink, E: Sink>(
    alloc: Global,
    words: &Words,
    files: &mut F,
    out: &mut O,
    err: &mut E,
) -> Exit
    // Some map of files agrees with all that this call loaded, since no path is loaded twice.
    ensures found { (map : FileMap) × AgreesWith map (loads_since (F.loads files.old) (F.loads files.new)) }
    ensures once { EachPathIsLoadedOnce (loads_since (F.loads files.old) (F.loads files.new)) }
    ensures stay { LoadsStay (F.loads files.old) (F.loads files.new) }

    // Over each such map the answer was taken: whole, a front of it, or nothing, as the exit says.
    ensures outcome { IsOutcome words.now (loads_since (F.loads files.old) (F.loads files.new))
        (ending_seen result) (record {
          old_out = O.taken out.old;
          new_out = O.taken out.new;
          old_err = E.taken err.old;
          new_err = E.taken err.new;
        }) }

    // Where no count of faults rose, the answer was given, or memory was wanting.
    ensures complete { Completes words.now (loads_since (F.loads files.old) (F.loads files.new))
        (Rose (F.faults files.old) (F.faults files.new) ⊎ Rose (O.faults out.old) (O.faults out.new)
        ⊎ Rose (E.faults err.old) (E.faults err.new))
        (ending_seen result) (record {
          old_out = O.taken out.old;
          new_out = O.taken out.new;
          old_err = E.taken err.old;
          new_err = E.taken err.new;
        }) }

    // Clean says that no run of the file that the words name meets a fault, whatever map it is taken from.
    ensures safe { IsSafeIfClean words.now (loads_since (F.loads files.old) (F.loads files.new))
        (ending_seen result) }

    // And, where the class of contexts is on, that each path through a function of it leaves with as many contexts as the function says.
    ensures balanced { IsBalancedIfClean words.now (loads_since (F.loads files.old) (F.loads files.new))
        (ending_seen result) }

    // Faults are told exactly by the counts.
    ensures read { Told (F.faults files.old) (F.faults files.new) (result ≡ Exit.ReadFault) }
    ensures write { ToldOfTwo (O.faults out.old) (O.faults out.new) (E.faults err.old)
        (E.faults err.new) (result ≡ Exit.WriteFault) }

    // The files hold what they held.
    ensures keeps { F.holds files.new ≡ F.holds files.old }

    // Where files and sinks tell what they hold, it is what was loaded and what was taken.
    ensures told_files { IfSome (F.holds files.old)
        (λ map. AgreesWith map (loads_since (F.loads files.old) (F.loads files.new))) }
    ensures told_out { TellsWhatItTook (O.written out.old) (O.written out.new) (O.taken out.old) (O.taken out.new) }
    ensures told_err { TellsWhatItTook (E.written err.old) (E.written err.new) (E.taken err.old) (E.taken err.new) }
{
    loads_of_each_path_once_agree();
    let written = match answer(alloc, words, files) {
        Ok(written) => written,
        Err(Stop::ReadFault) => return Exit::ReadFault,
        Err(Stop::NoMemory) => return Exit::NoMemory,
    };
    if deliver(&written, out, err) {
        written.exit
    } else {
        Exit::WriteFault
    }
}
