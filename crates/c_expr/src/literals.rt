// The nodes of literals, with the kinds and numbers of their values, or what is told of one without a value (C11 6.4.4,
// 6.4.5). A token arrives, or a row of them. How a value is spelled isn't known here.
ghost use Rattle.std.specs.Prelude.{◌≡◌, IfErr, IfOk, IsSome, None, Ok, OnOk};
ghost use Rattle.vocabulary.specs.declared.action.Action.TheVariants.{MakeCharacterConstant, MakeIntegerConstant, MakeStringLiteral};
ghost use Rattle.vocabulary.specs.declared.production_item.ProductionItem.TheVariants.{Do};
ghost use Rattle.meaning_literals.specs.Integers.{integer_of};
ghost use Rattle.meaning_literals.specs.Quoted.{char_of};
ghost use Rattle.meaning_grammar.specs.Sorts.{effect};
ghost use Rattle.meaning_derivation.specs.Values.{sorts_of};
ghost use Rattle.meaning_derivation.specs.State.{Goes};
ghost use Rattle.meaning_derivation.specs.Literals.{first_bad};
ghost use Rattle.meaning_derivation.specs.Actions.{act};
ghost use Rattle.c_literals.specs.Seen.{constant_seen};
ghost use Rattle.parse_state.specs.Seen.{state_of};
ghost use Rattle.parse_state.specs.Steps.{IsToldBy};
ghost use Rattle.parse_state.specs.Strings.{IsOfBad};

use c_literals::{read_char, read_integer};
use parse_state::{ActionFault, ParseState, Shape, Source, fault_of_literal};
use sparse_model::IntConst;
use vocabulary::NodeKind;

/// An integer constant.
pub fn make_integer_constant(state: &mut ParseState<'_>) -> Result<(), ActionFault>
    requires finds { IsSome (effect (Do MakeIntegerConstant) (sorts_of (state_of state.old).values)) }
    ensures goes { OnOk result (act MakeIntegerConstant (state_of state.old) ≡ Goes (state_of state.new)) }
    ensures told { IfErr result (IsToldBy (act MakeIntegerConstant (state_of state.old))) }
    ensures names { state.new.names ≡ state.old.names }
{
    let token = state.token(0);
    let constant = integer(state.spelling(0), token)?;
    state.make(&Shape {
        takes: 1,
        kind: NodeKind::IntegerConstant(constant.kind),
        token,
        name: None,
        number: constant.bits,
        sources: &[],
    })
}

/// A character constant.
pub fn make_character_constant(state: &mut ParseState<'_>) -> Result<(), ActionFault>
    requires finds { IsSome (effect (Do MakeCharacterConstant) (sorts_of (state_of state.old).values)) }
    ensures goes { OnOk result (act MakeCharacterConstant (state_of state.old) ≡ Goes (state_of state.new)) }
    ensures told { IfErr result (IsToldBy (act MakeCharacterConstant (state_of state.old))) }
    ensures names { state.new.names ≡ state.old.names }
{
    let token = state.token(0);
    let constant = character(state.spelling(0), token)?;
    state.make(&Shape {
        takes: 1,
        kind: NodeKind::CharacterConstant(constant.kind),
        token,
        name: None,
        number: constant.bits,
        sources: &[],
    })
}

/// A string literal of the pieces that stand beside each other, whose number is how many elements its array has: their bytes
/// and the zero behind them (6.4.5 p6). The first piece without a value is told. An array of 2^64 elements is want of memory.
pub fn make_string_literal(state: &mut ParseState<'_>) -> Result<(), ActionFault>
    requires finds { IsSome (effect (Do MakeStringLiteral) (sorts_of (state_of state.old).values)) }
    ensures goes { OnOk result (act MakeStringLiteral (state_of state.old) ≡ Goes (state_of state.new)) }
    ensures told { IfErr result (IsToldBy (act MakeStringLiteral (state_of state.old))) }
    ensures names { state.new.names ≡ state.old.names }
{
    let Some(number) = state.string_length(0)?.checked_add(1) else {
        return Err(ActionFault::Memory);
    };
    let token = state.token(1);
    state.make(&Shape {
        takes: 2,
        kind: NodeKind::StringLiteral,
        token,
        name: None,
        number,
        sources: &[Source::AllTrees(0)],
    })
}

// The value of an integer constant, or what is told of it at its token.
fn integer(text: &[u8], token: u32) -> Result<IntConst, ActionFault>
    ensures value { IfOk result (λ found. integer_of text.now ≡ Ok (constant_seen found)) }
    ensures told { IfErr result (IsOfBad (first_bad (integer_of text.now) token None)) }
{
    match read_integer(text) {
        Ok(constant) => Ok(constant),
        Err(fault) => Err(fault_of_literal(fault, token)),
    }
}

// The value of a character constant, or what is told of it at its token.
fn character(text: &[u8], token: u32) -> Result<IntConst, ActionFault>
    ensures value { IfOk result (λ found. char_of text.now ≡ Ok (constant_seen found)) }
    ensures told { IfErr result (IsOfBad (first_bad (char_of text.now) token None)) }
{
    match read_char(text) {
        Ok(constant) => Ok(constant),
        Err(fault) => Err(fault_of_literal(fault, token)),
    }
}
