// What is told where an item can't go on: the item arrives with what was read and what is left, and a fault leaves. Nothing is
// changed here.
ghost use Rattle.std.specs.Prelude.{◌≡◌, ◌∷◌, IfErr, IfNone, IfSome, List, OnOk};
ghost use Rattle.c_tokens.specs.Seen.{IsKnown};
ghost use Rattle.meaning_grammar.specs.Terminals as grammar;
ghost use Rattle.meaning_derivation.specs.State.{Outcome};
ghost use Rattle.meaning_derivation.specs.Taking.{behind_limit, fault_before, refused_at, unless_held};
ghost use Rattle.parse_state.specs.Seen.{state_of};
ghost use Rattle.c_terminals.specs.Seen.{terminal_of};
ghost use Rattle.c_parse.specs.Steps.{unless_noted};
ghost use Rattle.c_parse.specs.Telling.{IsTold};

use crate::expected::fault_of_class;
use crate::fault::ParseFault;
use crate::looks::class_in;
use c_terminals::{Terminal, Terminals};
use parse_state::ParseState;
use vocabulary::{ErrorKind, ProductionItem};

// The error where an item can't go on before a terminal: first that the terminal isn't supported.
fn fault_at(state: &ParseState<'_>, item: ProductionItem, terminal: &Terminal) -> ErrorKind
    requires { IsKnown state.now.names terminal.now.name }
    ensures { (others : List grammar.Terminal) → result ≡ fault_before item (state_of state.now) (terminal_of state.now.names terminal.now ∷ others) }
{
    match terminal.refusal {
        Some(error) => error,
        None => fault_of_class(state, item, class_in(state, terminal)),
    }
}

// The error where an item can't go on before what is left.
fn fault_before(
    state: &ParseState<'_>,
    terminals: &Terminals<'_>,
    item: ProductionItem,
) -> ErrorKind
    requires { terminals.now.names ≡ state.now.names }
    ensures { result ≡ fault_before item (state_of state.now) terminals.now.terminals }
{
    match terminals.next() {
        None => ErrorKind::SyntaxError,
        Some(terminal) => fault_at(state, item, &terminal),
    }
}

// The limit that was passed at an earlier terminal, if one was.
fn earlier_limit(state: &ParseState<'_>) -> Option<ParseFault>
    ensures passed { IfSome result (λ fault. (otherwise : Outcome) → IsTold (λ outcome. behind_limit (state_of state.now).passed (state_of state.now).taken otherwise ≡ outcome) fault) }
    ensures none { IfNone result ((otherwise : Outcome) → behind_limit (state_of state.now).passed (state_of state.now).taken otherwise ≡ otherwise) }
{
    match state.passed() {
        None => None,
        Some(passed) => {
            if passed.terminal < state.taken() {
                Some(ParseFault::Limit(passed.limit, passed.terminal))
            } else {
                None
            }
        }
    }
}

/// What is told where an item can't go on before what is left.
pub(crate) fn refusal(
    state: &ParseState<'_>,
    terminals: &Terminals<'_>,
    item: ProductionItem,
) -> ParseFault
    requires { terminals.now.names ≡ state.now.names }
    ensures { IsTold (λ outcome. refused_at item (state_of state.now) terminals.now.terminals ≡ outcome) result }
{
    match earlier_limit(state) {
        Some(fault) => fault,
        None => ParseFault::Refused(fault_before(state, terminals, item), state.next_token()),
    }
}

/// Nothing was noted that is told where a terminal is taken.
pub(crate) fn check_noted(state: &ParseState<'_>) -> Result<(), ParseFault>
    ensures ok { OnOk result ((otherwise : Outcome) → unless_noted (state_of state.now) otherwise ≡ otherwise) }
    ensures err { IfErr result (λ fault. (otherwise : Outcome) → IsTold (λ outcome. unless_noted (state_of state.now) otherwise ≡ outcome) fault) }
{
    match earlier_limit(state) {
        Some(fault) => Err(fault),
        None => check_held(state),
    }
}

// No specifiers are refused where a terminal is taken behind them.
fn check_held(state: &ParseState<'_>) -> Result<(), ParseFault>
    ensures ok { OnOk result ((otherwise : Outcome) → unless_held (state_of state.now).held (state_of state.now).taken otherwise ≡ otherwise) }
    ensures err { IfErr result (λ fault. (otherwise : Outcome) → IsTold (λ outcome. unless_held (state_of state.now).held (state_of state.now).taken otherwise ≡ outcome) fault) }
{
    match state.held() {
        None => Ok(()),
        Some(held) => Err(ParseFault::Refused(held.kind, held.token)),
    }
}
