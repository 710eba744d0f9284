// An argument of a call is ready, or all are (C11 6.10.3.1, 6.10.3.4). How a body is made isn't known here.
ghost use Rattle.std.specs.Prelude.{◌≡◌, ◌+◌, ◌<◌, ◌≤◌, ◌^◌, ◌++◌, ◌∷◌, ℕ, List, [], All, length, drop, take, slice_get, Some, None, OnOk, IfErr};
ghost use Rattle.meaning_macros.specs.Bodies.{chains};
ghost use Rattle.meaning_macros.specs.Substitution.{substituted};
ghost use Rattle.number_sets.specs.NumberSets as number_sets;
ghost use Rattle.c_tokens.specs.Seen.{Extends, at_of};
ghost use Rattle.c_macros.specs.Arguments.{HasArguments, arguments_by};
ghost use Rattle.c_macros.specs.Reading.{HasName, HasSet, Reading, ReadsNames};
ghost use Rattle.c_macros.specs.Run.{Comes, Fails, IsKnownCall, IsKnownRun, KnowsTable, left_to_do};
ghost use Rattle.c_macros.specs.Seen.{IsKnownMacro, macro_by};
ghost use Rattle.c_macros.specs.Substitution.{Answers};
ghost use Rattle.c_macros.specs.Waiting.{Ended, Holds, InRow, Waiting, end_if};
ghost use Rattle.c_macros.specs.declared.item.Item.{Item};
ghost use Rattle.c_macros.specs.declared.expand_fault.ExpandFault.TheVariants.{Memory};

use crate::argument::begin_argument;
use crate::arguments::Arguments;
use crate::budget::Budget;
use crate::entry::Entry;
use crate::expand_fault::ExpandFault;
use crate::item::Item;
use crate::reading::number_at;
use crate::run::{Call, Run};
use crate::substitution::{SubstitutionFault, substitute};
use crate::table::MacroTable;
use c_tokens::Names;
use std::alloc::{AllocError, Global};

impl Run {
    /// Ends the current argument of the innermost call: the next one begins, or the call is replaced.
    pub(crate) fn end_argument(
        &mut self,
        alloc: Global,
        table: &MacroTable,
        names: &mut Names,
        budget: &mut Budget,
    ) -> Result<(), ExpandFault>
        requires ended { length self.old.work.items ≤ self.old.floor }
        requires table { KnowsTable names.old table.now }
        requires known { IsKnownRun names.old self.old }
        requires sum { budget.old.counter + budget.old.replacements < 2 ^ 32 }
        ensures comes { (waits : List Waiting) (made now : List Item) → Holds self.old waits made now → OnOk result (Comes names.new self.new table.now waits made now budget.old budget.new) }
        ensures fails { (waits : List Waiting) (made now : List Item) → Holds self.old waits made now → IfErr result (Fails names.new self.new table.now waits made now budget.old) }
        ensures known { OnOk result (IsKnownRun names.new self.new) }
        ensures smaller { (waits : List Waiting) (made now : List Item) → Holds self.old waits made now → OnOk result (left_to_do self.new budget.new < left_to_do self.old budget.old) }
        ensures sum { OnOk result (budget.new.counter + budget.new.replacements < 2 ^ 32) }
        ensures keeps { Extends names.old names.new }
        ensures sets { number_sets.Extends self.old.sets self.new.sets }
    {
        let Some(call) = self.calls.pop() else {
            return Err(ExpandFault::Memory);
        };
        let Some(_mark) = self.work.pop() else {
            return Err(ExpandFault::Memory);
        };
        self.note_end()?;
        match number_at(self.stops.as_slice(), call.next_stop) {
            Some(stop) => self.begin_next(table, call, stop),
            None => self.end_call(alloc, table, names, call, budget),
        }
    }

    // Notes that an argument ends at the last item, as it was written and expanded.
    fn note_end(&mut self) -> Result<(), AllocError>
        ensures put { OnOk result (self.new.put_ends.items ≡ self.old.put_ends.items ++ length self.old.put.items ∷ []) }
        ensures raw { OnOk result (self.new.raw_ends.items ≡ self.old.raw_ends.items ++ length self.old.raw.items ∷ []) }
        ensures others { OnOk result (self.new ≡ record self.old { put_ends = self.new.put_ends; raw_ends = self.new.raw_ends }) }
        ensures sets { self.new.sets ≡ self.old.sets }
    {
        self.put_ends.push(self.put.len())?;
        self.raw_ends.push(self.raw.len())?;
        Ok(())
    }

    // The next argument begins, which is read down to this floor.
    fn begin_next(
        &mut self,
        table: &MacroTable,
        call: Call,
        floor: usize,
    ) -> Result<(), ExpandFault>
        requires { slice_get self.old.stops.items call.next_stop ≡ Some floor }
        ensures comes { (names : List (List ℕ)) (waits : List Waiting) (made now : List Item) (b : Budget) → Ended self.old call waits made now → OnOk result (Comes names self.new table.now waits made now b b) }
        ensures only { IfErr result (λ fault. fault ≡ Memory) }
        ensures known { (names : List (List ℕ)) → IsKnownRun names self.old → IsKnownCall names self.old.sets call → OnOk result (IsKnownRun names self.new) }
        ensures smaller { (b : Budget) → OnOk result (left_to_do self.new b ≤ left_to_do self.old b + 1) }
        ensures sets { self.new.sets ≡ self.old.sets }
    {
        let Some(entry) = table.entry(call.name.token.name) else {
            return Err(ExpandFault::Memory);
        };
        let Some(taken) = entry.use_of(self.put_ends.len().saturating_sub(call.first_put_end))
        else {
            return Err(ExpandFault::Memory);
        };
        self.calls.push(Call {
            next_stop: call.next_stop + 1,
            ..call
        })?;
        self.floor = floor;
        begin_argument(&mut self.work, floor, &mut self.raw, taken)?;
        Ok(())
    }

    // All arguments are ready: the body, with the arguments in place, goes on top of what is read.
    fn end_call(
        &mut self,
        alloc: Global,
        table: &MacroTable,
        names: &mut Names,
        call: Call,
        budget: &mut Budget,
    ) -> Result<(), ExpandFault>
        requires table { KnowsTable names.old table.now }
        requires known { IsKnownRun names.old self.old }
        requires call { IsKnownCall names.old self.old.sets call }
        requires sum { budget.old.counter + budget.old.replacements < 2 ^ 32 }
        requires last { slice_get self.old.stops.items call.next_stop ≡ None }
        ensures comes { (waits : List Waiting) (made now : List Item) → Ended self.old call waits made now → OnOk result (Comes names.new self.new table.now waits made now budget.old budget.new) }
        ensures fails { (waits : List Waiting) (made now : List Item) → Ended self.old call waits made now → IfErr result (Fails names.new self.new table.now waits made now budget.old) }
        ensures known { OnOk result (IsKnownRun names.new self.new) }
        ensures smaller { (waits : List Waiting) (made now : List Item) → Ended self.old call waits made now → OnOk result (left_to_do self.new budget.new ≤ left_to_do self.old budget.old) }
        ensures sum { OnOk result (budget.new.counter + budget.new.replacements < 2 ^ 32) }
        ensures keeps { Extends names.old names.new }
        ensures sets { number_sets.Extends self.old.sets self.new.sets }
    {
        let Some(entry) = table.entry(call.name.token.name) else {
            return Err(ExpandFault::Memory);
        };
        self.note_absent(call.absent)?;
        match self.substitute_call(alloc, names, entry, &call, budget.tokens) {
            Ok(()) => {
                names.apart();
                self.leave(&call);
                self.lay_body(&call.name, call.hides, budget)
            }
            Err(fault) => Err(self.told(fault, call.name.token.place, call.first_put)),
        }
    }

    // Notes one more empty argument, where it isn't there.
    fn note_absent(&mut self, absent: bool) -> Result<(), AllocError>
        ensures put { OnOk result (self.new.put_ends.items ≡ self.old.put_ends.items ++ end_if absent (length self.old.put.items)) }
        ensures raw { OnOk result (self.new.raw_ends.items ≡ self.old.raw_ends.items ++ end_if absent (length self.old.raw.items)) }
        ensures others { OnOk result (self.new ≡ record self.old { put_ends = self.new.put_ends; raw_ends = self.new.raw_ends }) }
        ensures sets { self.new.sets ≡ self.old.sets }
    {
        if absent {
            return self.note_end();
        }
        Ok(())
    }

    // Substitutes the body of a call whose arguments are ready.
    fn substitute_call(
        &mut self,
        alloc: Global,
        names: &mut Names,
        entry: &Entry,
        call: &Call,
        most: u32,
    ) -> Result<(), SubstitutionFault>
        requires body { IsKnownMacro names.old entry.now }
        requires raw { All (HasName names.old) self.old.raw.items }
        requires put { All (HasName names.old) self.old.put.items }
        ensures answer { (r : Reading) → ReadsNames names.new r → (raws readys : List (List Item)) → InRow self.old.raw.items self.old.raw_ends.items call.now.first_raw call.now.first_raw_end raws → InRow self.old.put.items self.old.put_ends.items call.now.first_put call.now.first_put_end readys →
            Answers r most self.new.laid result (substituted (at_of call.now.name.token.place) (arguments_by r raws) (arguments_by r readys) (chains (macro_by r.spelled entry.now))) }
        ensures count { OnOk result (length self.new.laid.items.items ≤ most) }
        ensures known { OnOk result (All (HasName names.new) self.new.laid.items.items) }
        ensures sets { (table : number_sets.Table) → 0 < length table → All (HasSet table) self.old.raw.items → All (HasSet table) self.old.put.items → OnOk result (All (HasSet table) self.new.laid.items.items) }
        ensures others { self.new ≡ record self.old { laid = self.new.laid } }
        ensures keeps { Extends names.old names.new }
    {
        self.laid.clear();
        let raw = arguments_in(
            &self.raw,
            call.first_raw,
            &self.raw_ends,
            call.first_raw_end,
        );
        let expanded = arguments_in(
            &self.put,
            call.first_put,
            &self.put_ends,
            call.first_put_end,
        );
        substitute(
            alloc,
            names,
            entry.operands(),
            call.name.token.place,
            raw,
            expanded,
            most,
            &mut self.laid,
        )
    }

    // What the call held goes, and the list that it is part of is read again.
    fn leave(&mut self, call: &Call)
        ensures put { self.new.put.items ≡ take call.now.first_put self.old.put.items }
        ensures put_ends { self.new.put_ends.items ≡ take call.now.first_put_end self.old.put_ends.items }
        ensures raw { self.new.raw.items ≡ take call.now.first_raw self.old.raw.items }
        ensures raw_ends { self.new.raw_ends.items ≡ take call.now.first_raw_end self.old.raw_ends.items }
        ensures stops { self.new.stops.items ≡ take call.now.first_stop self.old.stops.items }
        ensures others { self.new ≡ record self.old { put = self.new.put; put_ends = self.new.put_ends; raw = self.new.raw; raw_ends = self.new.raw_ends; stops = self.new.stops; floor = call.now.outer } }
    {
        self.put.truncate(call.first_put);
        self.put_ends.truncate(call.first_put_end);
        self.raw.truncate(call.first_raw);
        self.raw_ends.truncate(call.first_raw_end);
        self.stops.truncate(call.first_stop);
        self.floor = call.outer;
    }
}

// The arguments that stand in a row from this place on, and end as is noted from this place on.
fn arguments_in<'a>(
    items: &'a Vec<Item>,
    first: usize,
    ends: &'a Vec<usize>,
    first_end: usize,
) -> Arguments<'a>
    ensures row { (lists : List (List Item)) → InRow items.now.items ends.now.items first first_end lists → HasArguments result lists }
    ensures items { result.items.now ≡ items.now.items }
{
    Arguments {
        items: items.as_slice(),
        first,
        ends: from_on(ends.as_slice(), first_end),
    }
}

// The numbers from this place on.
fn from_on(numbers: &[usize], first: usize) -> &[usize]
    ensures { result.now ≡ drop first numbers.now }
{
    if first > numbers.len() {
        return &numbers[..0];
    }
    &numbers[first..]
}
