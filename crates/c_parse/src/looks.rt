// The classes of the next two terminals: that of a name depends on what it is bound to. What was read and the terminals
// arrive, and two classes leave. Which row they choose isn't known here.
ghost use Rattle.std.specs.Prelude.{◌≡◌, if◌then◌else◌, IfSome, None, option_map};
ghost use Rattle.c_tokens.specs.Seen.{IsKnown};
ghost use Rattle.meaning_derivation.specs.Taking.{class_in};
ghost use Rattle.parse_state.specs.Seen.{state_of};
ghost use Rattle.c_terminals.specs.Seen.{terminal_of};
ghost use Rattle.c_parse.specs.Kept.{keeps_scopes};
ghost use Rattle.c_parse.specs.Moments.{MayBeLooks};
ghost use Rattle.c_parse.specs.Steps.{AreLooks, class_or_end};

use c_terminals::{Terminal, Terminals};
use parse_state::ParseState;
use vocabulary::{Action, TokenClass};

/// The class of a terminal.
pub(crate) fn class_in(state: &ParseState<'_>, terminal: &Terminal) -> TokenClass
    requires { IsKnown state.now.names terminal.now.name }
    ensures { result ≡ class_in (state_of state.now).scopes (terminal_of state.now.names terminal.now) }
{
    match terminal.class {
        TokenClass::Identifier => state.class(terminal.name),
        class => class,
    }
}

// The class of a terminal, or the end where none is left.
fn class_or_end(state: &ParseState<'_>, terminal: Option<Terminal>) -> TokenClass
    requires { IfSome terminal (λ found. IsKnown state.now.names found.name) }
    ensures { result ≡ class_or_end (state_of state.now).scopes (option_map (terminal_of state.now.names) terminal) }
{
    match terminal {
        None => TokenClass::End,
        Some(terminal) => class_in(state, &terminal),
    }
}

/// The classes of the next two terminals.
#[derive(Clone, Copy)]
pub(crate) struct Looks {
    pub(crate) next: TokenClass,
    pub(crate) behind: TokenClass,
}

/// Asks for them.
pub(crate) fn next_looks(state: &ParseState<'_>, terminals: &Terminals<'_>) -> Looks
    requires { terminals.now.names ≡ state.now.names }
    ensures { AreLooks (state_of state.now) terminals.now.terminals result }
{
    Looks {
        next: class_or_end(state, terminals.next()),
        behind: class_or_end(state, terminals.behind()),
    }
}

/// What is still remembered of them behind an action.
pub(crate) fn looks_after(looks: Option<Looks>, action: Action) -> Option<Looks>
    ensures { result ≡ (if keeps_scopes action then looks else None) }
{
    if keeps_scopes(action) { looks } else { None }
}

// The action binds nothing, and opens and closes no scope. Not all such: those that stand often between two terminals.
fn keeps_scopes(action: Action) -> bool
    ensures { result ≡ keeps_scopes action }
{
    match action {
        Action::BeginList => true,
        Action::BeginAtNext => true,
        Action::Append(_) => true,
        Action::JoinSuffixes => true,
        Action::MakeLeaf(_) => true,
        Action::MakeNamed(_) => true,
        Action::MakeOver(_, _) => true,
        Action::MakeOverTwo(_, _, _) => true,
        Action::MakeOverList(_) => true,
        Action::MakeBinary(_, _) => true,
        Action::MakePostfix(_) => true,
        Action::MakeMember(_) => true,
        Action::MakeCall => true,
        Action::UseName => true,
        _ => false,
    }
}

/// Asks for them, unless they are remembered.
pub(crate) fn known_looks(
    remembered: Option<Looks>,
    state: &ParseState<'_>,
    terminals: &Terminals<'_>,
) -> Looks
    requires names { terminals.now.names ≡ state.now.names }
    requires remembered { MayBeLooks (state_of state.now) terminals.now.terminals remembered }
    ensures { AreLooks (state_of state.now) terminals.now.terminals result }
{
    match remembered {
        Some(known) => known,
        None => next_looks(state, terminals),
    }
}
