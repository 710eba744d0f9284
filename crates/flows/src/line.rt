// A flow and its counts, read from a line.
ghost use Rattle.std.specs.Prelude.{◌≡◌, ◌<◌, ◌≤◌, ◌^◌, ◌++◌, [], ◌∷◌, IfErr, IfOk, IfSome, MatchOption, OnOk, false, true, length, map};
ghost use Rattle.control_flow.specs.Seen.{graph_of_blocks, step_of, targets};
ghost use Rattle.flows.specs.Reading.{Reads, Fails};
ghost use Rattle.flows.specs.Lines.{begins_block, begins_number, begins_step, behind_bar, block_at, block_with, blocks_at, line_at, line_with, note_at, note_count_at, steps_at, successors_at};
ghost use Rattle.flows.specs.Answers.{IsOneMore, IsReadingOf};

use crate::number::{behind_mark, behind_spaces, read_number, read_signed};
use crate::step::read_step;
use crate::wrong::{Fault, Wrong, fault_at};
use context_walk::ContextNote;
use control_flow::{Block, BlockList, StepList};
use std::alloc::{AllocError, Global};
use tag_list::TagList;

/// Why no line was read.
#[derive(Clone, Copy)]
pub(crate) enum NoLine {
    Wrong(Fault),
    NoMemory,
}

impl From<Fault> for NoLine {
    ghost use Rattle.std.specs.Prelude.{◌≡◌};
    ghost use Rattle.flows.specs.declared.line.NoLine.TheVariants.{Wrong};

    ghost from_gives = { λ fault no_line. no_line ≡ Wrong fault };

    fn from(fault: Fault) -> Self {
        NoLine::Wrong(fault)
    }
}

impl From<AllocError> for NoLine {
    ghost use Rattle.std.specs.Prelude.{◌≡◌};
    ghost use Rattle.flows.specs.declared.line.NoLine.TheVariants.{NoMemory};

    ghost from_gives = { λ _ no_line. no_line ≡ NoMemory };

    fn from(_error: AllocError) -> Self {
        NoLine::NoMemory
    }
}

/// Reads the blocks of a line, and gives the counts behind them.
pub(crate) fn read_line(
    blocks: &mut BlockList,
    alloc: Global,
    text: &[u8],
) -> Result<ContextNote, NoLine>
    requires small { length text.now ≤ 2 ^ 30 }
    requires empty { blocks.old ≡ [] }
    ensures reads { IfOk result (λ note. line_at text.now ≡ Reads (line_with (graph_of_blocks blocks.new) note) []) }
    ensures fails { IfErr result (IsReadingOf (line_at text.now)) }
{
    let rest = read_blocks(blocks, alloc, behind_spaces(text))?;
    let note = read_note(rest)?;
    Ok(note)
}

// The counts behind the blocks, which end the line.
fn read_note(text: &[u8]) -> Result<ContextNote, Fault>
    ensures reads { IfOk result (λ note. note_at text.now ≡ Reads note []) }
    ensures fails { IfErr result (λ fault. note_at text.now ≡ Fails fault.wrong fault.left) }
{
    let (enters, rest) = read_note_count(text, b';', Wrong::NoCounts)?;
    let (leaves, rest) = read_note_count(rest, b',', Wrong::NoComma)?;
    let rest = behind_spaces(rest);
    if rest.is_empty() {
        return Ok(ContextNote { enters, leaves });
    }
    Err(fault_at(rest, Wrong::NoEnd))
}

// A count behind this mark, around which spaces may stand.
fn read_note_count(text: &[u8], mark: u8, wrong: Wrong) -> Result<(i64, &[u8]), Fault>
    ensures reads { IfOk result (λ read. note_count_at mark wrong text.now ≡ Reads read.0 read.1.now) }
    ensures fails { IfErr result (λ fault. note_count_at mark wrong text.now ≡ Fails fault.wrong fault.left) }
{
    let rest = behind_mark(behind_spaces(text), mark, wrong)?;
    read_signed(behind_spaces(rest))
}

// Appends blocks, one behind another, and gives the text behind them.
fn read_blocks<'t>(
    blocks: &mut BlockList,
    alloc: Global,
    text: &'t [u8],
) -> Result<&'t [u8], NoLine>
    requires small { length text.now ≤ 2 ^ 30 }
    requires empty { blocks.old ≡ [] }
    ensures reads { IfOk result (λ rest. blocks_at text.now ≡ Reads (graph_of_blocks blocks.new) rest.now) }
    ensures fails { IfErr result (IsReadingOf (blocks_at text.now)) }
{
    let mut rest = text;
    'parts: loop {
        let after = read_block(blocks, alloc, rest)?;
        let behind = behind_spaces(after);
        match behind_bar(behind) {
            Some(onward) => rest = onward,
            None => return Ok(behind),
        }
    }
}

// Where the next block begins, if one does.
fn behind_bar(text: &[u8]) -> Option<&[u8]>
    ensures begins { MatchOption result (begins_block text.now ≡ false) (λ _. begins_block text.now ≡ true) }
    ensures onward { IfSome result (λ rest. rest.now ≡ behind_bar text.now) }
    ensures shorter { IfSome result (λ rest. length rest.now < length text.now) }
{
    match text.split_first() {
        Some((b'|', others)) => Some(behind_spaces(others)),
        _ => None,
    }
}

// Appends a block, and gives the text behind it.
fn read_block<'t>(blocks: &mut BlockList, alloc: Global, text: &'t [u8]) -> Result<&'t [u8], NoLine>
    requires { length text.now ≤ 2 ^ 30 }
    ensures reads { IfOk result (λ rest. IsOneMore (graph_of_blocks blocks.old) (graph_of_blocks blocks.new) (block_at text.now) rest.now) }
    ensures fails { IfErr result (IsReadingOf (block_at text.now)) }
    ensures shorter { IfOk result (λ rest. length rest.now < length text.now) }
{
    let mut steps = StepList::new(alloc);
    let mut next = TagList::new(alloc);
    let rest = read_parts(&mut steps, &mut next, text)?;
    push_block(blocks, Block { steps, next })?;
    Ok(rest)
}

fn push_block(blocks: &mut BlockList, block: Block) -> Result<(), AllocError>
    ensures { OnOk result (blocks.new ≡ blocks.old ++ block ∷ []) }
{
    match blocks.push(block) {
        Ok(()) => Ok(()),
        Err(_) => Err(AllocError),
    }
}

// Reads the steps and the successors of a block.
fn read_parts<'t>(
    steps: &mut StepList,
    next: &mut TagList,
    text: &'t [u8],
) -> Result<&'t [u8], NoLine>
    requires small { length text.now ≤ 2 ^ 30 }
    requires steps { steps.old ≡ [] }
    requires next { next.old ≡ [] }
    ensures reads { IfOk result (λ rest. block_at text.now ≡ Reads (block_with (map step_of steps.new) (targets next.new)) rest.now) }
    ensures fails { IfErr result (IsReadingOf (block_at text.now)) }
    ensures shorter { IfOk result (λ rest. length rest.now < length text.now) }
{
    let rest = read_steps(steps, text)?;
    match rest.split_first() {
        Some((b'>', others)) => read_successors(next, behind_spaces(others)),
        _ => Ok(rest),
    }
}

// Reads the steps of a block, or the mark for none.
fn read_steps<'t>(steps: &mut StepList, text: &'t [u8]) -> Result<&'t [u8], NoLine>
    requires { steps.old ≡ [] }
    ensures reads { IfOk result (λ rest. steps_at text.now ≡ Reads (map step_of steps.new) rest.now) }
    ensures fails { IfErr result (IsReadingOf (steps_at text.now)) }
    ensures shorter { IfOk result (λ rest. length rest.now < length text.now) }
{
    if let Some((b'-', others)) = text.split_first() {
        return Ok(behind_spaces(others));
    }
    let mut rest = text;
    'steps: loop {
        let (step, behind) = read_step(rest)?;
        if steps.push(step).is_err() {
            return Err(NoLine::NoMemory);
        }
        rest = behind_spaces(behind);
        if !begins_step(rest) {
            return Ok(rest);
        }
    }
}

// No mark stands here that ends the steps of a block.
fn begins_step(text: &[u8]) -> bool
    ensures { result ≡ begins_step text.now }
{
    !matches!(text.first(), None | Some(b'>' | b'|' | b';'))
}

// Reads the numbers of successors, of which there is one at least.
fn read_successors<'t>(next: &mut TagList, text: &'t [u8]) -> Result<&'t [u8], NoLine>
    requires small { length text.now ≤ 2 ^ 30 }
    requires empty { next.old ≡ [] }
    ensures reads { IfOk result (λ rest. successors_at text.now ≡ Reads (targets next.new) rest.now) }
    ensures fails { IfErr result (IsReadingOf (successors_at text.now)) }
    ensures shorter { IfOk result (λ rest. length rest.now < length text.now) }
{
    let mut rest = text;
    'numbers: loop {
        let (number, behind) = read_number(rest, 1_073_741_823)?;
        next.push(number as u32, 0)?;
        rest = behind_spaces(behind);
        if !begins_number(rest) {
            return Ok(rest);
        }
    }
}

fn begins_number(text: &[u8]) -> bool
    ensures { result ≡ begins_number text.now }
{
    !matches!(text.first(), None | Some(b'|' | b';'))
}
