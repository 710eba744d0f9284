// A body, read once into what expansion asks of it. What it becomes isn't known here.
ghost use Rattle.std.specs.Prelude.{◌≡◌, true, map, IfOk};
ghost use Rattle.meaning_macros.specs.WellFormed.{are_different};
ghost use Rattle.c_macros.specs.Body.{ReadsBody};
ghost use Rattle.c_macros.specs.Parameters.{params_in};
ghost use Rattle.c_macros.specs.Seen.{own_text};

use crate::chains::read_parts;
use crate::definition::Macro;
use crate::operand::{ParameterUse, Part};
use crate::parameters::Parameters;
use crate::pieces::{inner_body, read_pieces};
use crate::uses::read_uses;
use std::alloc::{AllocError, Global};

/// A body as chains of operands, one behind the other.
#[derive(Drop)]
pub(crate) struct Body {
    pub(crate) parts: Vec<Part>,
    /// For each parameter, how the body takes its argument.
    pub(crate) uses: Vec<ParameterUse>,
}

/// Reads the body of a macro. It takes time in the macro's size alone.
pub(crate) fn read_body(alloc: Global, m: &Macro) -> Result<Body, AllocError>
    requires { are_different (map own_text (params_in m.now.params)) ≡ true }
    ensures { IfOk result (ReadsBody m.now) }
{
    let parameters = Parameters::new(alloc, m.parameters())?;
    let inner = inner_body(alloc, m.body.as_slice())?;
    let pieces = read_pieces(alloc, &parameters, inner.as_slice())?;
    let count = parameters.len();
    let parts = read_parts(alloc, m.variadic, count, pieces.as_slice())?;
    let uses = read_uses(alloc, count as usize, parts.as_slice())?;
    Ok(Body { parts, uses })
}
