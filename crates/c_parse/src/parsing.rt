// A unit from its first token to its end: its tokens arrive, and its tree leaves, or the one thing that is told of it. What an
// item does isn't known here.
ghost use Rattle.std.specs.Prelude.{◌≡◌, ◌∷◌, [], IfErr, IfOk, OnOk};
ghost use Rattle.meaning_derivation.specs.Actions.{act};
ghost use Rattle.meaning_derivation.specs.Leading.{ComesTo, LeadsTo};
ghost use Rattle.meaning_derivation.specs.State.{Done};
ghost use Rattle.meaning_derivation.specs.Units.{state_before};
ghost use Rattle.meaning_derivation.specs.Values.{sorts_of};
ghost use Rattle.meaning_tree.specs.Forms.{IsFormed};
ghost use Rattle.meaning_tree.specs.Laid.{IsLaid};
ghost use Rattle.meaning_grammar.specs.Productions.{start};
ghost use Rattle.meaning_grammar.specs.Sorts.{ATree};
ghost use Rattle.meaning_grammar.specs.Terminals.{terminals};
ghost use Rattle.c_tokens.specs.Seen.{toks_of};
ghost use Rattle.c_terminals.specs.Left.{AreKnown};
ghost use Rattle.parse_state.specs.Finished.{HasKnownNames, spelled};
ghost use Rattle.parse_state.specs.Seen.{state_of};
ghost use Rattle.c_parse.specs.Answers.{IsFaultOf, DerivesUnit};
ghost use Rattle.c_parse.specs.Moments.{IsReady, standing_with};
ghost use Rattle.c_parse.specs.Steps.{before_end};
ghost use Rattle.c_parse.specs.Telling.{IsTold};

use crate::fault::ParseFault;
use crate::looks::next_looks;
use crate::parser::Parser;
use crate::pending::Pending;
use crate::stepping::step;
use crate::taking::{take, token_before};
use c_terminals::Terminals;
use c_tokens::{Names, Token};
use c_tree::Unit;
use parse_state::ParseState;
use std::alloc::{AllocError, Global};
use vocabulary::{Action, ProductionItem, Symbol, TokenClass};

// What a unit is: its declarations and functions, up to the end.
static UNIT: [ProductionItem; 3] = [
    ProductionItem::Do(Action::BeginList),
    ProductionItem::Nonterminal(Symbol::ExternalDeclarations),
    ProductionItem::Do(Action::MakeTranslationUnit),
];

// The index behind so many tokens.
fn index_behind(count: usize) -> Result<u32, AllocError>
    ensures { IfOk result (λ index. index ≡ count) }
{
    if count > u32::MAX as usize {
        return Err(AllocError);
    }
    Ok(count as u32)
}

// Before the first token of a unit.
fn begin<'t>(alloc: Global, names: &'t Names, tokens: &'t [Token]) -> Result<Parser<'t>, AllocError>
    requires { AreKnown names.now tokens.now }
    ensures ready { IfOk result (λ parser. IsReady parser.pending parser) }
    ensures state { IfOk result (λ parser. state_of parser.state ≡ state_before (toks_of names.now tokens.now)) }
    ensures terminals { IfOk result (λ parser. parser.terminals.terminals ≡ terminals (toks_of names.now tokens.now)) }
    ensures items { IfOk result (λ parser. before_end parser.pending ≡ start) }
    ensures names { IfOk result (λ parser. parser.state.names ≡ names.now) }
{
    let last = index_behind(tokens.len())?;
    let terminals = Terminals::new(alloc, names, tokens)?;
    let next = token_before(&terminals, last);
    Ok(Parser {
        state: ParseState::new(alloc, names, tokens, next, last),
        terminals,
        pending: Pending::new(alloc, &UNIT),
        looks: None,
    })
}

// Each item, one behind the other.
fn run(parser: &mut Parser<'_>) -> Result<(), ParseFault>
    requires { IsReady parser.old.pending parser.old }
    ensures leads { OnOk result (LeadsTo act (standing_with parser.old.pending parser.old) (standing_with [] parser.new)) }
    ensures ready { OnOk result (IsReady [] parser.new) }
    ensures told { IfErr result (IsTold (ComesTo act (standing_with parser.old.pending parser.old))) }
    ensures names { OnOk result (parser.new.state.names ≡ parser.old.state.names) }
{
    while let Some(item) = parser.pending.next() {
        step(parser, item)?;
    }
    Ok(())
}

// The end of the unit.
fn end(parser: &mut Parser<'_>) -> Result<(), ParseFault>
    requires { IsReady [] parser.old }
    ensures done { OnOk result (ComesTo act (standing_with [] parser.old) (Done (state_of parser.new.state) [])) }
    ensures sorted { OnOk result (sorts_of (state_of parser.new.state).values ≡ ATree ∷ []) }
    ensures told { IfErr result (IsTold (ComesTo act (standing_with [] parser.old))) }
    ensures names { OnOk result (parser.new.state.names ≡ parser.old.state.names) }
{
    let looks = next_looks(&parser.state, &parser.terminals);
    let end = ProductionItem::Passed(TokenClass::End);
    take(&mut parser.state, &mut parser.terminals, end, looks.next)?;
    Ok(())
}

/// The tree of a unit, as nodes with their names in the table: that which its tokens derive.
///
/// # Errors
/// `Refused` with what is told first of the tokens and the token at which it stands, or as many as there are where the file
/// ends too early, and `Limit` with the limit that is passed first.
pub fn parse(alloc: Global, names: &Names, tokens: &[Token]) -> Result<Unit, ParseFault>
    requires { AreKnown names.now tokens.now }
    ensures tree { IfOk result (λ unit. DerivesUnit (toks_of names.now tokens.now) (spelled names.now unit)) }
    ensures first { IfOk result (λ unit. unit.first ≡ 0) }
    ensures laid { IfOk result (λ unit. IsLaid unit) }
    ensures formed { IfOk result (λ unit. IsFormed unit) }
    ensures names { IfOk result (HasKnownNames names.now) }
    ensures fault { IfErr result (IsFaultOf (toks_of names.now tokens.now)) }
{
    let mut parser = begin(alloc, names, tokens)?;
    run(&mut parser)?;
    end(&mut parser)?;
    let Parser { state, .. } = parser;
    Ok(state.into_unit())
}
