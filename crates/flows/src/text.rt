// The lines of a text to their answers, a line each.
ghost use Rattle.std.specs.Prelude.{◌≡◌, ◌<◌, ◌≤◌, ◌+◌, ◌^◌, ◌++◌, IfErr, IfOk, OnOk, codes, length};
ghost use Rattle.std.specs.Fmt.{decimal};
ghost use Rattle.flows.specs.Shown.{shown_answer, shown_exit};
ghost use Rattle.control_flow.specs.Seen.{graph_of};
ghost use Rattle.flows.specs.Lines.{line_with};
ghost use Rattle.flows.specs.Answers.{IsAnswerFor, IsAnswerOf, IsFaultFor, IsFaultOf, Shows, place_of};

use crate::check::asked_fault;
use crate::front::{from_block, split_at_byte};
use crate::line::{NoLine, read_line};
use crate::wrong::{Fault, Place, fault_at};
use context_walk::{ContextAnswer, ContextNote, walk};
use control_flow::{BlockList, Flow, push_count, push_number};
use std::alloc::{AllocError, Global};

/// Appends the answers to the lines of a text, up to the first line that has none, and gives the place of that one.
pub(crate) fn push_answers(
    shown: &mut Vec<u8>,
    alloc: Global,
    text: &[u8],
) -> Result<Option<Place>, AllocError>
    requires { length text.now ≤ 2 ^ 30 }
    ensures { IfOk result (Shows 1 shown.old.items text.now shown.new.items) }
{
    let mut rest = text;
    let mut number: usize = 1;
    'lines: while !rest.is_empty() {
        let (line, others) = split_at_byte(rest, b'\n');
        match answer_line(alloc, line) {
            Ok(answer) => push_answer(shown, answer)?,
            Err(NoLine::NoMemory) => return Err(AllocError),
            Err(NoLine::Wrong(fault)) => return Ok(Some(place_of(number, line, fault))),
        }
        number += 1;
        rest = others;
    }
    Ok(None)
}

fn place_of(number: usize, line: &[u8], fault: Fault) -> Place
    requires { length line.now ≤ 2 ^ 30 }
    ensures { result ≡ place_of number line.now fault }
{
    Place {
        line: number,
        column: line.len().saturating_sub(fault.left) + 1,
        wrong: fault.wrong,
    }
}

// The answer for the flow of a line.
fn answer_line(alloc: Global, text: &[u8]) -> Result<ContextAnswer, NoLine>
    requires { length text.now ≤ 2 ^ 30 }
    ensures answer { IfOk result (IsAnswerOf text.now) }
    ensures fault { IfErr result (IsFaultOf text.now) }
{
    let mut flow = Flow {
        blocks: BlockList::new(alloc),
    };
    let note = read_line(&mut flow.blocks, alloc, text)?;
    answer_flow(alloc, text, &flow, &note)
}

// The answer for the flow and the counts that a line has.
fn answer_flow(
    alloc: Global,
    text: &[u8],
    flow: &Flow,
    note: &ContextNote,
) -> Result<ContextAnswer, NoLine>
    ensures answer { IfOk result (IsAnswerFor (line_with (graph_of flow.now) note.now)) }
    ensures fault { IfErr result (IsFaultFor text.now (line_with (graph_of flow.now) note.now)) }
{
    if let Some((number, wrong)) = asked_fault(flow.blocks.as_slice(), note.enters) {
        return Err(NoLine::Wrong(fault_at(from_block(text, number), wrong)));
    }
    Ok(walk(alloc, flow, note)?)
}

fn push_answer(shown: &mut Vec<u8>, answer: ContextAnswer) -> Result<(), AllocError>
    ensures { OnOk result (shown.new.items ≡ shown.old.items ++ shown_answer answer) }
{
    match answer {
        ContextAnswer::Balanced => shown.extend_from_slice(b"Balanced\n"),
        ContextAnswer::Different(token) => push_token(shown, b"Different(", token),
        ContextAnswer::Below(token) => push_token(shown, b"Below(", token),
        ContextAnswer::WrongExit(token, found) => push_exit(shown, token, found),
    }
}

fn push_token(shown: &mut Vec<u8>, front: &[u8], token: u32) -> Result<(), AllocError>
    ensures { OnOk result (shown.new.items ≡ shown.old.items ++ front.now ++ decimal token ++ codes ")\n") }
{
    push_number(shown, front, u64::from(token))?;
    shown.extend_from_slice(b")\n")
}

fn push_exit(shown: &mut Vec<u8>, token: u32, found: i64) -> Result<(), AllocError>
    ensures { OnOk result (shown.new.items ≡ shown.old.items ++ shown_exit token found) }
{
    push_number(shown, b"WrongExit(", u64::from(token))?;
    push_count(shown, b", ", found)?;
    shown.extend_from_slice(b")\n")
}
