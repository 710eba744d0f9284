// What was read so far, and what is asked of it. Tokens and the table of spellings arrive, and the files beside this one
// change it. What is still to be read isn't known here.
use crate::marks::{ClosedParameters, HeldError, PassedLimit};
use crate::value::Value;
use c_scope::Scopes;
use c_tokens::{Names, Token};
use c_tree::Unit;
use std::alloc::Global;
use std::marker::Model;

/// What was read of a unit so far.
///
/// Its value is the state of a derivation, and the spellings through which it is seen. Each tree's nodes are one run of the
/// list of nodes, and the values of the stack have all of them.
#[derive(Drop)]
pub struct ParseState<'t> {
    pub(crate) alloc: Global,
    pub(crate) names: &'t Names,
    pub(crate) values: Vec<Value>,
    pub(crate) unit: Unit,
    pub(crate) scopes: Scopes,
    pub(crate) taken: u32,
    pub(crate) next_token: u32,
    pub(crate) last_token: u32,
    pub(crate) passed: Option<PassedLimit>,
    pub(crate) held: Option<HeldError>,
    pub(crate) function_end: Option<u32>,
    pub(crate) closed: Vec<ClosedParameters>,
    pub(crate) awaited: Option<u32>,
    pub(crate) tokens: &'t [Token],
}

impl<'t> Model for ParseState<'t> {
    ghost use Rattle.std.specs.Prelude.{map};
    ghost use Rattle.parse_state.specs.Seen.{Read, closed_seen};
    ghost use Rattle.parse_state.specs.Soundness.{IsSound};

    ghost Value = { Read };

    ghost view = { λ s. record {
      names = s.names.now;
      list = s.unit;
      stack = s.values.items;
      scopes = s.scopes;
      taken = s.taken;
      next_token = s.next_token;
      last_token = s.last_token;
      passed = s.passed;
      held = s.held;
      function_end = s.function_end;
      closed = map closed_seen s.closed.items;
      awaited = s.awaited;
      tokens = s.tokens.now;
    } };

    ghost invariant = { λ s. IsSound s.names.now s.unit s.values.items s.scopes (map closed_seen s.closed.items) };
}

impl<'t> ParseState<'t> {
    ghost use Rattle.std.specs.Prelude.{◌≡◌, [], None};
    ghost use Rattle.c_tokens.specs.Seen.{toks_of};
    ghost use Rattle.parse_state.specs.Seen.{state_of};

    /// The state before the first terminal of these tokens, which is the one with the first index. It takes no memory.
    pub fn new(
        alloc: Global,
        names: &'t Names,
        tokens: &'t [Token],
        next_token: u32,
        last_token: u32,
    ) -> ParseState<'t>
        ensures names { result.names ≡ names.now }
        ensures state { state_of result ≡ record { taken = 0; next_token = next_token; last_token = last_token; values = []; scopes = []; nodes = 0; passed = None; held = None; function_end = None; closed = []; awaited = None; tokens = toks_of names.now tokens.now } }
    {
        names.apart();
        ParseState {
            alloc,
            names,
            values: Vec::new(alloc),
            unit: Unit::new(alloc),
            scopes: Scopes::new(alloc),
            taken: 0,
            next_token,
            last_token,
            passed: None,
            held: None,
            function_end: None,
            closed: Vec::new(alloc),
            awaited: None,
            tokens,
        }
    }
}
