// Which arguments a body takes expanded, and which as they are written. What the arguments are isn't known here.
ghost use Rattle.std.specs.Prelude.{◌≡◌, ◌<◌, ◌&&◌, ℕ, Some, true, map, option_map, slice_get, IfOk};
ghost use Rattle.c_macros.specs.Operands.{begins_next, grouped, operand_by, part_by};
ghost use Rattle.c_macros.specs.Seen.{Spelling};
ghost use Rattle.c_macros.specs.Uses.{marked, marked_at, noted, use_in};

use crate::operand::{Operand, ParameterUse, Part};
use std::alloc::{AllocError, Global};

/// How the operands, which begin with a chain, take the arguments of so many parameters.
pub(crate) fn read_uses(
    alloc: Global,
    count: usize,
    parts: &[Part],
) -> Result<Vec<ParameterUse>, AllocError>
    requires { (s : Spelling) → begins_next (map (part_by s) parts.now) ≡ true }
    ensures { IfOk result (λ uses. (s : Spelling) (k : ℕ) → k < count → slice_get uses.items k ≡ Some (use_in k (grouped (map (part_by s) parts.now)))) }
{
    let unused = ParameterUse {
        apart: false,
        raw: false,
    };
    let mut uses = vec![in alloc; unused; count]?;
    let mut rest = parts;
    while let Some((part, others)) = rest.split_first() {
        note(&mut uses, part.operand, is_alone(part, others));
        rest = others;
    }
    Ok(uses)
}

// The operand before these is a chain.
fn is_alone(part: &Part, others: &[Part]) -> bool
    ensures { (s : Spelling) → result ≡ (part.now.begins && begins_next (map (part_by s) others.now)) }
{
    part.begins && begins(others)
}

// A chain begins with the first of the operands, or there is none.
fn begins(parts: &[Part]) -> bool
    ensures { (s : Spelling) → result ≡ begins_next (map (part_by s) parts.now) }
{
    match parts.first() {
        Some(part) => part.begins,
        None => true,
    }
}

// Notes what an operand, which is a whole chain or not, takes.
fn note(uses: &mut Vec<ParameterUse>, operand: Operand, alone: bool)
    ensures { (s : Spelling) (k : ℕ) → slice_get uses.new.items k ≡ option_map (noted alone (operand_by s operand) k) (slice_get uses.old.items k) }
{
    match operand {
        Operand::Own(_) => {}
        Operand::Argument { parameter, .. } => mark(uses, parameter, alone),
        Operand::Stringized { parameter, .. } => mark(uses, parameter, false),
        Operand::CommaAndRest { parameter, .. } => mark(uses, parameter, false),
    }
}

fn mark(uses: &mut Vec<ParameterUse>, parameter: u32, apart: bool)
    ensures { (k : ℕ) → slice_get uses.new.items k ≡ option_map (marked_at parameter apart k) (slice_get uses.old.items k) }
{
    let index = parameter as usize;
    if index < uses.len() {
        uses[index] = with_use(uses[index], apart);
    }
}

fn with_use(known: ParameterUse, apart: bool) -> ParameterUse
    ensures { result ≡ marked apart known }
{
    ParameterUse {
        apart: known.apart || apart,
        raw: known.raw || !apart,
    }
}
