// The two numbers of a context: the tokens of its item arrive, and the nodes of two constants leave. What they count isn't
// known here.
ghost use Rattle.std.specs.Prelude.{◌≡◌, ◌+◌, IfErr, IfOk, IsSome, OnOk, reverse};
ghost use Rattle.vocabulary.specs.declared.action.Action.TheVariants.{AppendAttribute};
ghost use Rattle.vocabulary.specs.declared.production_item.ProductionItem.TheVariants.{Do};
ghost use Rattle.meaning_attributes.specs.Integers.{constants_from};
ghost use Rattle.meaning_grammar.specs.Sorts.{effect};
ghost use Rattle.meaning_derivation.specs.Values.{sorts_of, token_of, value_at};
ghost use Rattle.meaning_derivation.specs.State.{Goes, made};
ghost use Rattle.meaning_derivation.specs.Attributes.{constant_at, context_appended, tokens_from};
ghost use Rattle.c_literals.specs.Seen.{constant_seen};
ghost use Rattle.parse_state.specs.Seen.{state_of};
ghost use Rattle.parse_state.specs.Steps.{IsToldBy};
ghost use Rattle.parse_state.specs.declared.fault.ActionFault.TheVariants.{Memory};
ghost use Rattle.c_decl.specs.Attributes.{AreLastTwo, numbers_appended, placed_seen};

use crate::attributes::append_made;
use c_attrs::last_integer;
use parse_state::{ActionFault, ParseState, Shape, Source};
use sparse_model::IntConst;
use vocabulary::{NodeKind, Role};

// An integer constant, and the index of its token.
#[derive(Clone, Copy)]
pub(crate) struct PlacedInteger {
    pub(crate) token: u32,
    pub(crate) constant: IntConst,
}

/// The index of the token so many behind another one. Beyond 2^32 tokens it is want of memory.
pub(crate) fn token_behind(token: u32, count: usize) -> Result<u32, ActionFault>
    ensures there { IfOk result (λ found. found ≡ token + count) }
    ensures told { IfErr result (λ fault. fault ≡ Memory) }
{
    match u32::try_from(count) {
        Ok(count) => match token.checked_add(count) {
            Some(found) => Ok(found),
            None => Err(ActionFault::Memory),
        },
        Err(_) => Err(ActionFault::Memory),
    }
}

/// A context, whose numbers are the last two constants of its item.
pub(crate) fn append_context(state: &mut ParseState<'_>) -> Result<(), ActionFault>
    requires finds { IsSome (effect (Do AppendAttribute) (sorts_of (state_of state.old).values)) }
    ensures goes { OnOk result (context_appended (state_of state.old) (value_at (state_of state.old).values 0) (reverse (constants_from (token_of (value_at (state_of state.old).values 0)) (tokens_from (state_of state.old) (value_at (state_of state.old).values 0)))) ≡ Goes (state_of state.new)) }
    ensures told { IfErr result (IsToldBy (context_appended (state_of state.old) (value_at (state_of state.old).values 0) (reverse (constants_from (token_of (value_at (state_of state.old).values 0)) (tokens_from (state_of state.old) (value_at (state_of state.old).values 0)))))) }
    ensures names { state.new.names ≡ state.old.names }
{
    match context_numbers(state)? {
        Some((enters, leaves)) => append_numbers(state, enters, leaves),
        None => {
            state.drop_top();
            Ok(())
        }
    }
}

// The last two constants of an item, if there are two.
fn context_numbers(
    state: &ParseState<'_>,
) -> Result<Option<(PlacedInteger, PlacedInteger)>, ActionFault>
    ensures last { IfOk result (AreLastTwo (reverse (constants_from (token_of (value_at (state_of state.now).values 0)) (tokens_from (state_of state.now) (value_at (state_of state.now).values 0))))) }
    ensures told { IfErr result (λ fault. fault ≡ Memory) }
{
    let word = state.token(0);
    let Some((leaves, before)) = last_integer(state.names(), state.tokens_from(0)) else {
        return Ok(None);
    };
    let Some((enters, front)) = last_integer(state.names(), before) else {
        return Ok(None);
    };
    let enters = PlacedInteger {
        token: token_behind(word, front.len())?,
        constant: enters,
    };
    let leaves = PlacedInteger {
        token: token_behind(word, before.len())?,
        constant: leaves,
    };
    Ok(Some((enters, leaves)))
}

// A context with these numbers.
fn append_numbers(
    state: &mut ParseState<'_>,
    enters: PlacedInteger,
    leaves: PlacedInteger,
) -> Result<(), ActionFault>
    requires finds { IsSome (effect (Do AppendAttribute) (sorts_of (state_of state.old).values)) }
    ensures goes { OnOk result (numbers_appended (state_of state.old) (value_at (state_of state.old).values 0) (placed_seen enters) (placed_seen leaves) ≡ Goes (state_of state.new)) }
    ensures told { IfErr result (IsToldBy (numbers_appended (state_of state.old) (value_at (state_of state.old).values 0) (placed_seen enters) (placed_seen leaves))) }
    ensures names { state.new.names ≡ state.old.names }
{
    let word = state.token(0);
    make_constant(state, enters)?;
    make_constant(state, leaves)?;
    append_made(
        state,
        &Shape {
            takes: 3,
            kind: NodeKind::ContextAttribute,
            token: word,
            name: None,
            number: 0,
            sources: &[
                Source::OneTree(Role::TypePart, 1),
                Source::OneTree(Role::TypePart, 0),
            ],
        },
    )
}

// The node of a constant, on top of the others.
fn make_constant(state: &mut ParseState<'_>, integer: PlacedInteger) -> Result<(), ActionFault>
    ensures goes { OnOk result (made (state_of state.old) 0 (constant_at (placed_seen integer)) ≡ Goes (state_of state.new)) }
    ensures told { IfErr result (IsToldBy (made (state_of state.old) 0 (constant_at (placed_seen integer)))) }
    ensures names { state.new.names ≡ state.old.names }
{
    state.make(&Shape {
        takes: 0,
        kind: NodeKind::IntegerConstant(integer.constant.kind),
        token: integer.token,
        name: None,
        number: integer.constant.bits,
        sources: &[],
    })
}
