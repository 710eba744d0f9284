// How a terminal is taken: an item arrives, and the next terminal leaves as the value of the item. What is made of the value
// isn't known here.
ghost use Rattle.std.specs.Prelude.{◌≡◌, ◌∷◌, IfErr, OnOk, Some, drop, slice_get};
ghost use Rattle.c_tokens.specs.Seen.{IsKnown};
ghost use Rattle.meaning_derivation.specs.State.{Done, token_before, with_values};
ghost use Rattle.meaning_derivation.specs.Taking.{advanced, kept, look_of, take_one};
ghost use Rattle.parse_state.specs.Seen.{state_of};
ghost use Rattle.c_terminals.specs.Seen.{terminal_of};
ghost use Rattle.c_parse.specs.Telling.{IsTold};

use crate::fault::ParseFault;
use crate::items::{keeps, takes};
use crate::refusing::{check_noted, refusal};
use c_terminals::{Terminal, Terminals};
use parse_state::ParseState;
use std::alloc::AllocError;
use vocabulary::{ProductionItem, TokenClass};

// Puts a terminal on the stack where the item keeps it.
fn keep(
    state: &mut ParseState<'_>,
    item: ProductionItem,
    terminal: &Terminal,
) -> Result<(), AllocError>
    requires { IsKnown state.old.names terminal.now.name }
    ensures state { OnOk result (state_of state.new ≡ with_values (state_of state.old) (kept item (terminal_of state.old.names terminal.now) (state_of state.old).values)) }
    ensures names { state.new.names ≡ state.old.names }
{
    if keeps(item) {
        state.push_word(terminal.index, terminal.name)
    } else {
        Ok(())
    }
}

/// The token of the next terminal, or what it is last.
pub(crate) fn token_before(terminals: &Terminals<'_>, last: u32) -> u32
    ensures { result ≡ token_before last terminals.now.terminals }
{
    match terminals.next() {
        None => last,
        Some(terminal) => terminal.index,
    }
}

// Goes behind the next terminal, which is this one.
fn advance(
    state: &mut ParseState<'_>,
    terminals: &mut Terminals<'_>,
    item: ProductionItem,
    terminal: &Terminal,
) -> Result<(), AllocError>
    requires names { terminals.old.names ≡ state.old.names }
    requires known { IsKnown state.old.names terminal.now.name }
    requires next { slice_get terminals.old.terminals 0 ≡ Some (terminal_of state.old.names terminal.now) }
    ensures goes { OnOk result (advanced item (state_of state.old) terminals.old.terminals ≡ Done (state_of state.new) terminals.new.terminals) }
    ensures left { OnOk result (terminals.new.terminals ≡ drop 1 terminals.old.terminals) }
    ensures names { state.new.names ≡ state.old.names }
    ensures left_names { terminals.new.names ≡ terminals.old.names }
{
    terminals.advance()?;
    keep(state, item, terminal)?;
    let next = token_before(terminals, state.last_token());
    state.advance(next)
}

/// An item takes the next terminal, if that is of its class.
pub(crate) fn take(
    state: &mut ParseState<'_>,
    terminals: &mut Terminals<'_>,
    item: ProductionItem,
    look: TokenClass,
) -> Result<(), ParseFault>
    requires names { terminals.old.names ≡ state.old.names }
    requires look { look ≡ look_of (state_of state.old) terminals.old.terminals }
    ensures goes { OnOk result (take_one item (state_of state.old) terminals.old.terminals ≡ Done (state_of state.new) terminals.new.terminals) }
    ensures told { IfErr result (IsTold (λ outcome. take_one item (state_of state.old) terminals.old.terminals ≡ outcome)) }
    ensures left { OnOk result (terminals.new.terminals ≡ drop 1 terminals.old.terminals) }
    ensures names { state.new.names ≡ state.old.names }
    ensures left_names { terminals.new.names ≡ terminals.old.names }
{
    if !takes(item, look) {
        return Err(refusal(state, terminals, item));
    }
    check_noted(state)?;
    match terminals.next() {
        None => Ok(()),
        Some(terminal) => {
            advance(state, terminals, item, &terminal)?;
            Ok(())
        }
    }
}
