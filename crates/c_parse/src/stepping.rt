// One step: the next item arrives, and is taken, done, or replaced by a row; what is read and what waits leave so. What an
// action does isn't known here, nor the rows.
ghost use Rattle.std.specs.Prelude.{◌≡◌, ◌≤◌, ◌∷◌, [], IfErr, OnOk, Some, true, length};
ghost use Rattle.vocabulary.specs.declared.production_item.ProductionItem.TheVariants.{Do, Nonterminal};
ghost use Rattle.c_opening.specs.Opening.{Opens};
ghost use Rattle.meaning_grammar.specs.Choice.{choice};
ghost use Rattle.meaning_derivation.specs.Actions.{act};
ghost use Rattle.meaning_derivation.specs.Derivation.{is_terminal_item, symbols};
ghost use Rattle.meaning_derivation.specs.Leading.{ComesTo};
ghost use Rattle.meaning_derivation.specs.State.{with_waiting};
ghost use Rattle.parse_state.specs.Seen.{state_of};
ghost use Rattle.c_parse.specs.Moments.{IsReady, Moves, standing_with};
ghost use Rattle.c_parse.specs.Rows.{most_waiting};
ghost use Rattle.c_parse.specs.Steps.{AreLooks};
ghost use Rattle.c_parse.specs.Telling.{IsTold};

use crate::acting::act;
use crate::fault::{ParseFault, fault_of_action};
use crate::looks::{Looks, known_looks, looks_after};
use crate::parser::Parser;
use crate::pending::Pending;
use crate::refusing::refusal;
use crate::taking::take;
use c_opening::{is_absent, open};
use parse_state::ParseState;
use std::alloc::AllocError;
use vocabulary::{Action, ProductionItem, Symbol};

// The next terminal is taken by an item.
fn take_item(parser: &mut Parser<'_>, item: ProductionItem) -> Result<(), ParseFault>
    requires ready { IsReady (item ∷ parser.old.pending) parser.old }
    requires terminal { is_terminal_item item ≡ true }
    ensures moves { OnOk result (Moves (item ∷ parser.old.pending) parser.old parser.new) }
    ensures told { IfErr result (IsTold (ComesTo act (standing_with (item ∷ parser.old.pending) parser.old))) }
{
    let looks = known_looks(parser.looks, &parser.state, &parser.terminals);
    take(&mut parser.state, &mut parser.terminals, item, looks.next)?;
    parser.looks = None;
    Ok(())
}

// An action is done.
fn do_action(parser: &mut Parser<'_>, action: Action) -> Result<(), ParseFault>
    requires { IsReady (Do action ∷ parser.old.pending) parser.old }
    ensures moves { OnOk result (Moves (Do action ∷ parser.old.pending) parser.old parser.new) }
    ensures told { IfErr result (IsTold (ComesTo act (standing_with (Do action ∷ parser.old.pending) parser.old))) }
{
    match act(&mut parser.state, action) {
        Ok(()) => {
            parser.looks = looks_after(parser.looks, action);
            Ok(())
        }
        Err(fault) => Err(fault_of_action(fault)),
    }
}

// How many symbols of the grammar wait is noted, unless that is fewer than may. Inlined, it mostly costs its test alone.
#[inline(always)]
fn note_waiting(pending: &mut Pending, state: &mut ParseState<'_>)
    ensures same { pending.new ≡ pending.old }
    ensures few { length pending.old ≤ most_waiting }
    ensures state { state_of state.new ≡ with_waiting (symbols pending.old) (state_of state.old) }
    ensures names { state.new.names ≡ state.old.names }
{
    if pending.is_small() {
        return;
    }
    let count = pending.count();
    state.note_waiting(count);
}

// What a symbol opens to stands in its place.
fn replace(
    parser: &mut Parser<'_>,
    symbol: Symbol,
    items: &'static [ProductionItem],
    looks: Looks,
) -> Result<(), AllocError>
    requires ready { IsReady (Nonterminal symbol ∷ parser.old.pending) parser.old }
    requires looked { AreLooks (state_of parser.old.state) parser.old.terminals.terminals looks }
    requires opens { Opens looks.next looks.behind symbol items.now }
    requires short { length items.now ≤ 15 }
    ensures { OnOk result (Moves (Nonterminal symbol ∷ parser.old.pending) parser.old parser.new) }
{
    parser.pending.push(items)?;
    note_waiting(&mut parser.pending, &mut parser.state);
    parser.looks = Some(looks);
    Ok(())
}

// A symbol of operators that aren't there is passed over, and so are those that stand right behind it.
fn pass_absent(parser: &mut Parser<'_>, symbol: Symbol, looks: Looks)
    requires ready { IsReady (Nonterminal symbol ∷ parser.old.pending) parser.old }
    requires looked { AreLooks (state_of parser.old.state) parser.old.terminals.terminals looks }
    requires absent { choice symbol looks.next looks.behind ≡ Some [] }
    ensures { Moves (Nonterminal symbol ∷ parser.old.pending) parser.old parser.new }
{
    note_waiting(&mut parser.pending, &mut parser.state);
    parser.pending.pass_absent(looks.next);
    parser.looks = Some(looks);
}

// A symbol is replaced by what the next two terminals open it to.
fn expand(parser: &mut Parser<'_>, symbol: Symbol) -> Result<(), ParseFault>
    requires { IsReady (Nonterminal symbol ∷ parser.old.pending) parser.old }
    ensures moves { OnOk result (Moves (Nonterminal symbol ∷ parser.old.pending) parser.old parser.new) }
    ensures told { IfErr result (IsTold (ComesTo act (standing_with (Nonterminal symbol ∷ parser.old.pending) parser.old))) }
{
    let looks = known_looks(parser.looks, &parser.state, &parser.terminals);
    if is_absent(symbol, looks.next) {
        pass_absent(parser, symbol, looks);
        return Ok(());
    }
    match open(symbol, [looks.next, looks.behind]) {
        None => Err(refusal(
            &parser.state,
            &parser.terminals,
            ProductionItem::Nonterminal(symbol),
        )),
        Some(items) => {
            replace(parser, symbol, items, looks)?;
            Ok(())
        }
    }
}

/// One step, by the next item.
pub(crate) fn step(parser: &mut Parser<'_>, item: ProductionItem) -> Result<(), ParseFault>
    requires { IsReady (item ∷ parser.old.pending) parser.old }
    ensures moves { OnOk result (Moves (item ∷ parser.old.pending) parser.old parser.new) }
    ensures told { IfErr result (IsTold (ComesTo act (standing_with (item ∷ parser.old.pending) parser.old))) }
{
    match item {
        ProductionItem::Do(action) => do_action(parser, action),
        ProductionItem::Nonterminal(symbol) => expand(parser, symbol),
        _ => take_item(parser, item),
    }
}
