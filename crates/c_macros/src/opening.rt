// A call of a function-like macro begins (C11 6.10.3 p4, p10, p11). How its arguments become ready isn't known here.
ghost use Rattle.std.specs.Prelude.{◌≡◌, ◌+◌, ◌<◌, ◌≤◌, ◌^◌, ◌∷◌, ℕ, List, All, length, OnOk, IfOk, IfErr};
ghost use Rattle.number_sets.specs.NumberSets as number_sets;
ghost use Rattle.number_sets.specs.NumberSets.{IsSet};
ghost use Rattle.meaning_macros.specs.Hiding.{common, joined, only};
ghost use Rattle.c_macros.specs.Calls.{IsOpening};
ghost use Rattle.c_macros.specs.Purpose.{IsCalled};
ghost use Rattle.c_macros.specs.Reading.{HasSet, Reading, Reads};
ghost use Rattle.c_macros.specs.Run.{Comes, Fails, IsKnownItem, IsKnownRun, left_to_do};
ghost use Rattle.c_macros.specs.Stops.{AreClosings};
ghost use Rattle.c_macros.specs.Table.{Table};
ghost use Rattle.c_macros.specs.Waiting.{Holds, Waiting, noted};
ghost use Rattle.c_macros.specs.declared.item.Item.{Item};
ghost use Rattle.c_macros.specs.declared.run.Run.{Run};

use crate::argument::begin_argument;
use crate::budget::Budget;
use crate::entry::Entry;
use crate::expand_fault::ExpandFault;
use crate::item::Item;
use crate::reading::{CallRead, number_at, read_call};
use crate::run::{Call, Run};
use crate::step::hidden_too;
use crate::table::MacroTable;
use number_sets::{NumberSets, SetId};
use std::alloc::{AllocError, Global};
use vocabulary::LimitKind;

impl Run {
    /// Reads the call behind a function-like macro's name that was taken: its `(` is on top.
    pub(crate) fn open_call(
        &mut self,
        alloc: Global,
        table: &MacroTable,
        name: Item,
        budget: &mut Budget,
    ) -> Result<(), ExpandFault>
        requires above { self.old.floor < length self.old.work.items }
        requires sets { All (HasSet self.old.sets) self.old.work.items }
        requires closings { AreClosings self.old.work.items self.old.closings.items }
        requires name { HasSet self.old.sets name }
        requires sum { budget.old.counter + budget.old.replacements < 2 ^ 32 }
        ensures comes { (names : List (List ℕ)) (waits : List Waiting) (made now : List Item) → Holds self.old waits made now → ((r : Reading) → Reads names self.old.sets r → IsCalled r table.now name now) →
            OnOk result (Comes names self.new table.now waits made (name ∷ now) budget.old budget.new) }
        ensures fails { (names : List (List ℕ)) (waits : List Waiting) (made now : List Item) → Holds self.old waits made now → ((r : Reading) → Reads names self.old.sets r → IsCalled r table.now name now) →
            IfErr result (Fails names self.new table.now waits made (name ∷ now) budget.old) }
        ensures known { (names : List (List ℕ)) → IsKnownRun names self.old → IsKnownItem names self.old.sets name → OnOk result (IsKnownRun names self.new) }
        ensures smaller { OnOk result (left_to_do self.new budget.new < left_to_do self.old budget.old) }
        ensures sum { OnOk result (budget.new.counter + budget.new.replacements < 2 ^ 32) }
        ensures sets { number_sets.Extends self.old.sets self.new.sets }
    {
        let Some(entry) = table.entry(name.token.name) else {
            return Err(ExpandFault::Memory);
        };
        let Some(_opening) = self.work.pop() else {
            return Err(ExpandFault::Memory);
        };
        let first_stop = self.stops.len();
        let before = self.put.len();
        let read = read_call(
            alloc,
            self.work.as_slice(),
            self.floor,
            entry.definition(),
            &mut self.closings,
            &mut self.stops,
        )?;
        match read {
            CallRead::Open => Err(self.unclosed(name.token.place, before)),
            CallRead::Wrong => Err(self.mismatched(name.token.place, before)),
            CallRead::Fits { absent, closing } => {
                self.begin_call(entry, name, absent, closing, first_stop, budget)
            }
        }
    }

    // The call is replaced: from here on it waits for its first argument, whose end is noted.
    fn begin_call(
        &mut self,
        entry: &Entry,
        name: Item,
        absent: bool,
        closing: Item,
        first_stop: usize,
        budget: &mut Budget,
    ) -> Result<(), ExpandFault>
        requires name { HasSet self.old.sets name }
        requires closing { HasSet self.old.sets closing }
        requires sum { budget.old.counter + budget.old.replacements < 2 ^ 32 }
        ensures comes { (names : List (List ℕ)) (before : Run) (table : Table) (waits : List Waiting) (made now : List Item) (opening : Item) → IsOpening names before self.old table entry.now waits made now name opening absent closing first_stop →
            OnOk result (Comes names self.new table waits made (name ∷ opening ∷ now) budget.old budget.new) }
        ensures fails { (names : List (List ℕ)) (before : Run) (table : Table) (waits : List Waiting) (made now : List Item) (opening : Item) → IsOpening names before self.old table entry.now waits made now name opening absent closing first_stop →
            IfErr result (Fails names self.new table waits made (name ∷ opening ∷ now) budget.old) }
        ensures known { (names : List (List ℕ)) → IsKnownRun names self.old → IsKnownItem names self.old.sets name → OnOk result (IsKnownRun names self.new) }
        ensures smaller { OnOk result (left_to_do self.new budget.new ≤ left_to_do self.old budget.old + 1) }
        ensures sum { OnOk result (budget.new.counter + budget.new.replacements < 2 ^ 32) }
        ensures sets { number_sets.Extends self.old.sets self.new.sets }
    {
        if budget.replacements == 0 {
            return Err(self.passed(
                LimitKind::MacroReplacements,
                name.token.place,
                self.put.len(),
            ));
        }
        budget.replacements -= 1;
        let Some(taken) = entry.first_use() else {
            return Err(ExpandFault::Memory);
        };
        let Some(floor) = number_at(self.stops.as_slice(), first_stop) else {
            return Err(ExpandFault::Memory);
        };
        let hides = hidden_in_call(&mut self.sets, &name, &closing)?;
        let call = self.noted_call(name, hides, absent, first_stop);
        self.calls.push(call)?;
        self.floor = floor;
        begin_argument(&mut self.work, floor, &mut self.raw, taken)?;
        Ok(())
    }

    // The call as it is noted where it begins.
    fn noted_call(&self, name: Item, hides: SetId, absent: bool, first_stop: usize) -> Call
        requires { first_stop < length self.now.stops.items }
        ensures { result ≡ noted self.now name hides absent first_stop }
    {
        Call {
            name,
            hides,
            absent,
            outer: self.floor,
            next_stop: first_stop + 1,
            first_stop,
            first_put: self.put.len(),
            first_put_end: self.put_ends.len(),
            first_raw: self.raw.len(),
            first_raw_end: self.raw_ends.len(),
        }
    }
}

// What the body of a call hides: the names that both the macro's name and the `)` hide, and the name.
fn hidden_in_call(sets: &mut NumberSets, name: &Item, closing: &Item) -> Result<SetId, AllocError>
    requires name { HasSet sets.old name.now }
    requires closing { HasSet sets.old closing.now }
    ensures set { IfOk result (IsSet sets.new) }
    ensures read { IfOk result (λ found. (names : List (List ℕ)) (r : Reading) → Reads names sets.new r → r.hidden found ≡ joined (common (r.hidden name.now.hides) (r.hidden closing.now.hides)) (only (r.spelled name.now.token.name))) }
    ensures keeps { number_sets.Extends sets.old sets.new }
{
    let both = sets.intersection(name.hides, closing.hides)?;
    let hides = hidden_too(sets, both, name.token.name)?;
    Ok(hides)
}
