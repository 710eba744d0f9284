// The next token of a run: it is put, or what stands for it goes back to what is read.
ghost use Rattle.std.specs.Prelude.{◌≡◌, ◌+◌, ◌-◌, ◌<◌, ◌≤◌, ◌^◌, ◌++◌, ◌∷◌, ◌||◌, ℕ, List, All, length, nat_eq, IfOk, OnOk, IfErr};
ghost use Rattle.number_sets.specs.NumberSets as number_sets;
ghost use Rattle.number_sets.specs.NumberSets.{IsSet, holds};
ghost use Rattle.c_tokens.specs.Seen.{Extends};
ghost use Rattle.c_macros.specs.Laid.{LaidItems, Lays};
ghost use Rattle.c_macros.specs.Lay.{SpacedOn};
ghost use Rattle.c_macros.specs.Reading.{HasSet, Reading, Reads};
ghost use Rattle.c_macros.specs.Run.{Comes, Fails, IsKnownItem, IsKnownRun, KnowsTable, left_to_do};
ghost use Rattle.c_macros.specs.Purpose.{IsReplaced, predefined_by, use_before};
ghost use Rattle.c_macros.specs.Stops.{AreClosings};
ghost use Rattle.c_macros.specs.Waiting.{Holds, Waiting, backwards};
ghost use Rattle.c_macros.specs.declared.expand_fault.ExpandFault.TheVariants.{Memory};
ghost use Rattle.c_macros.specs.declared.item.Item.{Item};
ghost use Rattle.meaning_macros.specs.Expansion.{counter_behind};
ghost use Rattle.meaning_macros.specs.Expansion as expansion;

use crate::arguments::Arguments;
use crate::budget::Budget;
use crate::expand_fault::ExpandFault;
use crate::item::Item;
use crate::lay::{lay, put_space};
use crate::predefined::predefined_item;
use crate::purpose::{Predefined, Purpose};
use crate::run::Run;
use crate::substitution::substitute;
use crate::table::MacroTable;
use c_tokens::Names;
use number_sets::{NumberSets, SetId};
use sparse_model::NameId;
use std::alloc::{AllocError, Global};
use vocabulary::LimitKind;

impl Run {
    /// Takes the next token above the floor.
    pub(crate) fn take(
        &mut self,
        alloc: Global,
        table: &MacroTable,
        names: &mut Names,
        budget: &mut Budget,
    ) -> Result<(), ExpandFault>
        requires above { self.old.floor < length self.old.work.items }
        requires table { KnowsTable names.old table.now }
        requires known { IsKnownRun names.old self.old }
        requires sum { budget.old.counter + budget.old.replacements < 2 ^ 32 }
        ensures comes { (waits : List Waiting) (made now : List Item) → Holds self.old waits made now → OnOk result (Comes names.new self.new table.now waits made now budget.old budget.new) }
        ensures fails { (waits : List Waiting) (made now : List Item) → Holds self.old waits made now → IfErr result (Fails names.new self.new table.now waits made now budget.old) }
        ensures known { OnOk result (IsKnownRun names.new self.new) }
        ensures smaller { (waits : List Waiting) (made now : List Item) → Holds self.old waits made now → OnOk result (left_to_do self.new budget.new < left_to_do self.old budget.old) }
        ensures sum { OnOk result (budget.new.counter + budget.new.replacements < 2 ^ 32) }
        ensures keeps { Extends names.old names.new }
        ensures sets { number_sets.Extends self.old.sets self.new.sets }
    {
        let Some(item) = self.work.pop() else {
            return Ok(());
        };
        match self.purpose(table, names, &item) {
            Purpose::Stays => {
                self.put.push(item)?;
                Ok(())
            }
            Purpose::Predefines(name) => self.put_predefined(table, names, item, name, budget),
            Purpose::Replaced => self.replace(alloc, table, names, item, budget),
            Purpose::Called => self.open_call(alloc, table, item, budget),
        }
    }

    // The token of one of the three names is put: one replacement, and no made token.
    fn put_predefined(
        &mut self,
        table: &MacroTable,
        names: &mut Names,
        item: Item,
        name: Predefined,
        budget: &mut Budget,
    ) -> Result<(), ExpandFault>
        requires table { KnowsTable names.old table.now }
        requires known { IsKnownRun names.old self.old }
        requires item { IsKnownItem names.old self.old.sets item }
        requires sum { budget.old.counter + budget.old.replacements < 2 ^ 32 }
        ensures comes { (waits : List Waiting) (made now : List Item) → Holds self.old waits made now → ((r : Reading) → Reads names.old self.old.sets r → use_before r table.now item now ≡ expansion.Predefines (predefined_by name)) →
            OnOk result (Comes names.new self.new table.now waits made (item ∷ now) budget.old budget.new) }
        ensures fails { (waits : List Waiting) (made now : List Item) → Holds self.old waits made now → ((r : Reading) → Reads names.old self.old.sets r → use_before r table.now item now ≡ expansion.Predefines (predefined_by name)) →
            IfErr result (Fails names.new self.new table.now waits made (item ∷ now) budget.old) }
        ensures known { OnOk result (IsKnownRun names.new self.new) }
        ensures smaller { OnOk result (left_to_do self.new budget.new ≡ left_to_do self.old budget.old) }
        ensures sum { OnOk result (budget.new.counter + budget.new.replacements < 2 ^ 32) }
        ensures keeps { Extends names.old names.new }
        ensures sets { self.new.sets ≡ self.old.sets }
    {
        if budget.replacements == 0 {
            return Err(self.passed(
                LimitKind::MacroReplacements,
                item.token.place,
                self.put.len(),
            ));
        }
        budget.replacements -= 1;
        let made = predefined_item(table, names, budget.counter, &item, name)?;
        budget.counter += counted(name);
        self.put.push(made)?;
        Ok(())
    }

    // An object-like macro is replaced.
    fn replace(
        &mut self,
        alloc: Global,
        table: &MacroTable,
        names: &mut Names,
        item: Item,
        budget: &mut Budget,
    ) -> Result<(), ExpandFault>
        requires table { KnowsTable names.old table.now }
        requires known { IsKnownRun names.old self.old }
        requires item { IsKnownItem names.old self.old.sets item }
        requires sum { budget.old.counter + budget.old.replacements < 2 ^ 32 }
        ensures comes { (waits : List Waiting) (made now : List Item) → Holds self.old waits made now → ((r : Reading) → Reads names.old self.old.sets r → IsReplaced r table.now item now) →
            OnOk result (Comes names.new self.new table.now waits made (item ∷ now) budget.old budget.new) }
        ensures fails { (waits : List Waiting) (made now : List Item) → Holds self.old waits made now → ((r : Reading) → Reads names.old self.old.sets r → IsReplaced r table.now item now) →
            IfErr result (Fails names.new self.new table.now waits made (item ∷ now) budget.old) }
        ensures known { OnOk result (IsKnownRun names.new self.new) }
        ensures smaller { (waits : List Waiting) (made now : List Item) → Holds self.old waits made now → OnOk result (left_to_do self.new budget.new < left_to_do self.old budget.old + 2) }
        ensures sum { OnOk result (budget.new.counter + budget.new.replacements < 2 ^ 32) }
        ensures keeps { Extends names.old names.new }
        ensures sets { number_sets.Extends self.old.sets self.new.sets }
    {
        if budget.replacements == 0 {
            return Err(self.passed(
                LimitKind::MacroReplacements,
                item.token.place,
                self.put.len(),
            ));
        }
        budget.replacements -= 1;
        let Some(entry) = table.entry(item.token.name) else {
            return Err(ExpandFault::Memory);
        };
        let hides = hidden_too(&mut self.sets, item.hides, item.token.name)?;
        let none = Arguments {
            items: &[],
            first: 0,
            ends: &[],
        };
        self.laid.clear();
        match substitute(
            alloc,
            names,
            entry.operands(),
            item.token.place,
            none,
            none,
            budget.tokens,
            &mut self.laid,
        ) {
            Ok(()) => {
                names.apart();
                self.lay_body(&item, hides, budget)
            }
            Err(fault) => Err(self.told(fault, item.token.place, self.put.len())),
        }
    }

    /// The body goes on top of what is read, with the white space of the macro's name before it.
    pub(crate) fn lay_body(
        &mut self,
        name: &Item,
        hides: SetId,
        budget: &mut Budget,
    ) -> Result<(), ExpandFault>
        requires count { length self.old.laid.items.items ≤ budget.old.tokens }
        requires hides { IsSet self.old.sets hides }
        requires items { All (HasSet self.old.sets) self.old.laid.items.items }
        ensures lays { (parts : List LaidItems) → Lays self.old.laid parts → (below now : List Item) → self.old.work.items ≡ below ++ backwards now → self.old.floor ≡ length below →
            OnOk result (SpacedOn self.new.sets hides name.now.token.space_before parts below now self.new.work.items) }
        ensures count { (parts : List LaidItems) → Lays self.old.laid parts → (below now : List Item) → self.old.work.items ≡ below ++ backwards now → self.old.floor ≡ length below →
            OnOk result (length self.new.work.items ≡ length self.old.work.items + length self.old.laid.items.items) }
        ensures others { OnOk result (self.new ≡ record self.old { work = self.new.work; closings = self.new.closings; sets = self.new.sets; laid = self.new.laid }) }
        ensures closings { AreClosings self.old.work.items self.old.closings.items → OnOk result (AreClosings self.new.work.items self.new.closings.items) }
        ensures budget { budget.new ≡ record budget.old { tokens = budget.old.tokens - length self.old.laid.items.items } }
        ensures known { (names : List (List ℕ)) → All (IsKnownItem names self.old.sets) self.old.laid.items.items → All (IsKnownItem names self.old.sets) self.old.work.items → OnOk result (All (IsKnownItem names self.new.sets) self.new.work.items) }
        ensures sets { number_sets.Extends self.old.sets self.new.sets }
        ensures only { IfErr result (λ fault. fault ≡ Memory) }
    {
        self.closings.truncate(self.work.len());
        let most = budget.tokens;
        budget.tokens = most - self.laid.items.len() as u32;
        lay(
            &mut self.work,
            self.floor,
            &mut self.sets,
            hides,
            &mut self.laid,
        )?;
        put_space(&mut self.work, self.floor, name.token.space_before);
        Ok(())
    }
}

/// More names than this are want of memory.
const MAX_NAME: u32 = 0x3fff_ffff;

/// The set with a name too.
pub(crate) fn hidden_too(
    sets: &mut NumberSets,
    set: SetId,
    name: NameId,
) -> Result<SetId, AllocError>
    requires set { IsSet sets.old set }
    ensures set { IfOk result (IsSet sets.new) }
    ensures numbers { IfOk result (λ found. (n : ℕ) → holds sets.new found n ≡ nat_eq n name.0 || holds sets.old set n) }
    ensures keeps { number_sets.Extends sets.old sets.new }
{
    if name.0 > MAX_NAME {
        return Err(AllocError);
    }
    sets.with(set, name.0)
}

// How often `__COUNTER__` is replaced with this name.
fn counted(name: Predefined) -> u32
    ensures behind { (counter : ℕ) → counter_behind (predefined_by name) counter ≡ counter + result }
    ensures most { result ≤ 1 }
{
    match name {
        Predefined::CounterNumber => 1,
        _ => 0,
    }
}
