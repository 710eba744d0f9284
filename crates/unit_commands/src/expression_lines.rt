// The line of an expression: where it stands, its type, whether it is a place, and its constant.
ghost use Rattle.std.specs.Prelude.{◌≡◌, ◌++◌, OnOk};
ghost use Rattle.std.specs.Fmt.{decimal, signed_decimal};
ghost use Rattle.c_tokens.specs.Seen.{at_of};
ghost use Rattle.node_facts.specs.Facts.{IsKnownFact, IsKnownNodeFact, fact_seen, node_seen};
ghost use Rattle.unit_commands.specs.Types.{constant_mark, expression_line, fact_line, place_mark, position_text, shown_of};

use crate::places::place_of;
use expression_rows::number_of;
use itoa::Buffer;
use node_facts::{ExpressionFact, NodeFact};
use sparse_model::Place;
use std::alloc::{AllocError, Global};
use warn_print::{Show, type_text};

/// Appends the line of what is known of a node that stands at the token with this index, if that is an expression.
pub(crate) fn write_fact(
    alloc: Global,
    text: &mut Vec<u8>,
    show: &Show<'_>,
    token: u32,
    fact: NodeFact,
) -> Result<(), AllocError>
    requires { IsKnownNodeFact show.now.types.now fact }
    ensures { OnOk result (text.new.items ≡ text.old.items ++ fact_line (shown_of show.now) token (node_seen show.now.types.now fact)) }
{
    match fact {
        NodeFact::Expression(expression) => write_expression(alloc, text, show, token, expression),
        NodeFact::Unknown => Ok(()),
        NodeFact::Specified(_) => Ok(()),
        NodeFact::Declared(_) => Ok(()),
        NodeFact::NamedType(_) => Ok(()),
    }
}

fn write_expression(
    alloc: Global,
    text: &mut Vec<u8>,
    show: &Show<'_>,
    token: u32,
    expression: ExpressionFact,
) -> Result<(), AllocError>
    requires { IsKnownFact show.now.types.now expression }
    ensures { OnOk result (text.new.items ≡ text.old.items ++ expression_line (shown_of show.now) token (fact_seen show.now.types.now expression)) }
{
    write_position(text, place_of(&show.toks.tokens, token))?;
    let spelling = type_text(alloc, show, expression.node.of)?;
    text.extend_from_slice(spelling.as_slice())?;
    text.extend_from_slice(place_mark(expression.marks.is_place))?;
    write_constant(text, number_of(show.types, expression))?;
    text.push(b'\n')?;
    Ok(())
}

// Appends `LINE:COLUMN: `.
fn write_position(text: &mut Vec<u8>, place: Place) -> Result<(), AllocError>
    ensures { OnOk result (text.new.items ≡ text.old.items ++ position_text (at_of place)) }
{
    write_number(text, place.line)?;
    text.push(b':')?;
    write_number(text, place.column)?;
    text.extend_from_slice(b": ")
}

fn place_mark(is_place: bool) -> &'static [u8]
    ensures { result.now ≡ place_mark is_place }
{
    if is_place { b" (place)" } else { b"" }
}

// Appends the number of a constant, if there is one.
fn write_constant(text: &mut Vec<u8>, number: Option<i128>) -> Result<(), AllocError>
    ensures { OnOk result (text.new.items ≡ text.old.items ++ constant_mark number) }
{
    match number {
        Some(number) => {
            text.extend_from_slice(b" = ")?;
            write_signed(text, number)
        }
        None => Ok(()),
    }
}

fn write_number(text: &mut Vec<u8>, number: u32) -> Result<(), AllocError>
    ensures { OnOk result (text.new.items ≡ text.old.items ++ decimal number) }
{
    let mut buffer = Buffer::new();
    text.extend_from_slice(buffer.format(number).as_bytes())
}

fn write_signed(text: &mut Vec<u8>, number: i128) -> Result<(), AllocError>
    ensures { OnOk result (text.new.items ≡ text.old.items ++ signed_decimal number) }
{
    let mut buffer = Buffer::new();
    text.extend_from_slice(buffer.format(number).as_bytes())
}
