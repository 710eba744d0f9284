// Tokens to tokens: an expansion from its beginning to its end.
ghost use Rattle.std.specs.Prelude.{◌≡◌, ◌+◌, ◌<◌, ◌^◌, List, [], length, map, All, IfOk, IfErr, IsTrue, OnOk};
ghost use Rattle.number_sets.specs.NumberSets as number_sets;
ghost use Rattle.c_tokens.specs.declared.token.Token.{Token};
ghost use Rattle.c_tokens.specs.Seen.{Extends, IsKnown};
ghost use Rattle.c_tokens.specs.Spellings.{AreApart};
ghost use Rattle.c_macros.specs.Expanded.{EndsWith, FaultIsOf, KnowsAll, TokensAreOf, expanded_of, fresh_item, no_sets};
ghost use Rattle.c_macros.specs.Reading.{Reading, Reads};
ghost use Rattle.c_macros.specs.Run.{Comes, Fails, IsKnownItem, IsKnownRun, KnowsTable, left_to_do};
ghost use Rattle.c_macros.specs.Waiting.{Holds, Waiting, backwards};
ghost use Rattle.c_macros.specs.declared.item.Item.{Item};

use crate::budget::Budget;
use crate::expand_fault::ExpandFault;
use crate::item::Item;
use crate::laid::Laid;
use crate::run::Run;
use crate::table::MacroTable;
use c_tokens::{Names, Token};
use number_sets::{NumberSets, SetId};
use std::alloc::{AllocError, Global};

/// The set of a token that hides no name.
const NO_NAMES: SetId = SetId(0);

/// The tokens with their macros replaced (C11 6.10.3), as much as the budget allows.
///
/// It takes memory in step with the tokens, and time in step with those that are put, made and read.
pub fn expand(
    alloc: Global,
    table: &MacroTable,
    names: &mut Names,
    toks: &[Token],
    budget: &mut Budget,
) -> Result<Vec<Token>, ExpandFault>
    requires sum { budget.old.counter + budget.old.replacements < 2 ^ 32 }
    requires table { KnowsAll names.old table.now }
    requires tokens { All (λ (token : Token). IsKnown names.old token.name) toks.now }

    // Exactly the tokens of the expansion, with their kinds, spellings, places and white space.
    ensures tokens { IfOk result (λ made. TokensAreOf names.new made.items (expanded_of names.old table.now budget.old toks.now)) }

    // Exactly what the expansion leaves.
    ensures budget { OnOk result (EndsWith budget.new (expanded_of names.old table.now budget.old toks.now)) }

    // Each answer but want of memory says how the expansion ends, and behind how many tokens.
    ensures fault { IfErr result (λ fault. FaultIsOf fault (expanded_of names.old table.now budget.old toks.now)) }

    ensures known { IfOk result (λ made. All (λ (token : Token). IsKnown names.new token.name) made.items) }
    ensures keeps { Extends names.old names.new }
{
    let mut run = Run::new(alloc, toks)?;
    let mut left = *budget;
    'steps: while !run.is_done() {
        match run.step(alloc, table, names, &mut left) {
            Ok(()) => continue 'steps,
            Err(fault) => {
                names.apart();
                return Err(fault);
            }
        }
    }
    names.apart();
    *budget = left;
    let made = tokens_in(alloc, run.put.as_slice())?;
    Ok(made)
}

impl Run {
    /// The tokens before anything was done.
    fn new(alloc: Global, toks: &[Token]) -> Result<Self, AllocError>
        ensures holds { IfOk result (λ run. Holds run [] [] (map fresh_item toks.now)) }
        ensures sets { IfOk result (λ run. run.sets ≡ no_sets) }
        ensures closings { IfOk result (λ run. run.closings.items ≡ []) }
    {
        let work = fresh_items(alloc, toks)?;
        Ok(Run {
            work,
            floor: 0,
            closings: Vec::new(alloc),
            put: Vec::new(alloc),
            put_ends: Vec::new(alloc),
            raw: Vec::new(alloc),
            raw_ends: Vec::new(alloc),
            stops: Vec::new(alloc),
            calls: Vec::new(alloc),
            sets: NumberSets::new(alloc),
            laid: Laid::new(alloc),
        })
    }

    /// Nothing is left to read, and no call waits.
    fn is_done(&self) -> bool
        ensures done { IsTrue result → (waits : List Waiting) (made now : List Item) → Holds self.now waits made now → (waits ≡ []) × (now ≡ []) }
    {
        if !self.calls.is_empty() {
            return false;
        }
        self.work.len() <= self.floor
    }

    /// The next token, or the end of an argument.
    fn step(
        &mut self,
        alloc: Global,
        table: &MacroTable,
        names: &mut Names,
        budget: &mut Budget,
    ) -> Result<(), ExpandFault>
        requires table { KnowsTable names.old table.now }
        requires known { IsKnownRun names.old self.old }
        requires sum { budget.old.counter + budget.old.replacements < 2 ^ 32 }
        ensures comes { (waits : List Waiting) (made now : List Item) → Holds self.old waits made now → OnOk result (Comes names.new self.new table.now waits made now budget.old budget.new) }
        ensures fails { (waits : List Waiting) (made now : List Item) → Holds self.old waits made now → IfErr result (Fails names.new self.new table.now waits made now budget.old) }
        ensures known { OnOk result (IsKnownRun names.new self.new) }
        ensures smaller { (waits : List Waiting) (made now : List Item) → Holds self.old waits made now → OnOk result (left_to_do self.new budget.new < left_to_do self.old budget.old) }
        ensures sum { OnOk result (budget.new.counter + budget.new.replacements < 2 ^ 32) }
        ensures keeps { Extends names.old names.new }
        ensures sets { number_sets.Extends self.old.sets self.new.sets }
    {
        if self.work.len() > self.floor {
            return self.take(alloc, table, names, budget);
        }
        self.end_argument(alloc, table, names, budget)
    }
}

// The tokens of items.
fn tokens_in(alloc: Global, items: &[Item]) -> Result<Vec<Token>, AllocError>
    ensures { IfOk result (λ tokens. tokens.items ≡ map (λ (item : Item). item.token) items.now) }
{
    let mut tokens = Vec::with_capacity(alloc, items.len())?;
    for item in items {
        tokens.push(item.token)?;
    }
    Ok(tokens)
}

// The tokens as items, the first on top.
fn fresh_items(alloc: Global, toks: &[Token]) -> Result<Vec<Item>, AllocError>
    ensures { IfOk result (λ work. work.items ≡ backwards (map fresh_item toks.now)) }
{
    let mut work = Vec::with_capacity(alloc, toks.len())?;
    for token in toks {
        work.push(Item {
            token: *token,
            hides: NO_NAMES,
        })?;
    }
    work.reverse();
    Ok(work)
}
