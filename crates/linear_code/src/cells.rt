// The cells of a function: each node that control meets stands behind its parts. Where control goes from them isn't known here.
ghost use Rattle.std.specs.Prelude.{◌≡◌, ◌<◌, ◌≤◌, ◌-◌, ◌++◌, ◌∷◌, ℕ, List, [], IfOk, OnOk, drop, length, map, take};
ghost use Rattle.sparse_model.specs.declared.ids.NameId.{NameId as Name};
ghost use Rattle.vocabulary.specs.declared.node_kind.NodeKind.TheVariants as kinds;
ghost use Rattle.node_facts.specs.Facts.{name_seen};
ghost use Rattle.meaning_tree.specs.Laid.{IsLaid};
ghost use Rattle.meaning_tree.specs.Nodes.{end_of};
ghost use Rattle.meaning_typing.specs.Units as meaning;
ghost use Rattle.meaning_control.specs.Functions.{body_of, statement_of};
ghost use Rattle.meaning_control.specs.Nodes.{JudgedUnit, arranged, parts_where};
ghost use Rattle.meaning_control.specs.States.{count_of, parts_of};
ghost use Rattle.decl_judge.specs.Units.{nodes_of};
ghost use Rattle.control_cells.specs.Numbers.{StandBehindParts, most_cells};
ghost use Rattle.control_cells.specs.Seen.{cells_seen, kind_seen};
ghost use Rattle.control_cells.specs.Trees.{IsOneTree};
ghost use Rattle.linear_code.specs.Cells as definition;
ghost use Rattle.linear_code.specs.Known.{judged_unit};
ghost use Rattle.linear_code.specs.Passed.{KnowsLists};
ghost use Rattle.linear_code.specs.Tasks.{Finish, Visit, parts_in, stands_twice, tasks_seen, visits};

use crate::changes::body_of;
use crate::conditions::is_condition;
use crate::facts::ControlFacts;
use crate::kind::control_kind;
use crate::passed::push_passed;
use c_tree::{Handle, Unit};
use control_cells::{Cell, ControlKind};
use decl_judge::{kind_at, token_at};
use sparse_model::NodeKind;
use std::alloc::{AllocError, Global};

/// How many cells a body may have, copies counted in.
pub const MOST_CELLS: usize = 20_000_000;

/// What is left to do for the cells of a body.
#[derive(Clone, Copy)]
pub enum Task {
    /// The cells of a node, as it is tested or not.
    Visit(Handle, bool),
    /// A cell of this kind at this token. Its parts, so many, are the last cells that were made and are no parts yet.
    Finish(ControlKind, u32, usize),
}

// The parts of a node are to be visited, the first of them next.
fn push_visits(
    tasks: &mut Vec<Task>,
    kind: NodeKind,
    is_tested: bool,
    passed: &[Handle],
) -> Result<(), AllocError>
    ensures { OnOk result ((unit : JudgedUnit) → tasks_seen unit tasks.new.items
        ≡ map Visit (parts_where (definition.controls_in unit) kind is_tested 0 passed.now) ++ tasks_seen unit tasks.old.items) }
{
    for place in (0..passed.len()).rev() {
        let is_last = place + 1 == passed.len();
        let part_is_tested = is_condition(kind, is_tested, place, is_last);
        tasks.push(Task::Visit(passed[place], part_is_tested))?;
    }
    Ok(())
}

/// Whether what `__builtin_expect` expects is passed behind either outcome of its value.
pub fn stands_twice(kind: NodeKind, is_tested: bool, parts: usize) -> bool
    ensures { result ≡ stands_twice kind is_tested parts }
{
    match kind {
        NodeKind::BuiltinExpect => is_tested && parts == 2,
        _ => false,
    }
}

// How many parts a node has by how many it has in the text.
fn parts_in(kind: NodeKind, is_tested: bool, parts: usize) -> usize
    ensures { result ≡ parts_in kind is_tested parts }
{
    if stands_twice(kind, is_tested, parts) {
        3
    } else {
        parts
    }
}

// The same of parts of which one may stand twice.
fn push_parts(
    tasks: &mut Vec<Task>,
    kind: NodeKind,
    is_tested: bool,
    passed: &[Handle],
) -> Result<(), AllocError>
    ensures { OnOk result ((unit : JudgedUnit) → tasks_seen unit tasks.new.items
        ≡ map Visit (arranged kind is_tested (parts_where (definition.controls_in unit) kind is_tested 0 passed.now)) ++ tasks_seen unit tasks.old.items) }
{
    if stands_twice(kind, is_tested, passed.len()) {
        let again = is_condition(kind, is_tested, 1, true);
        tasks.push(Task::Visit(passed[1], again))?;
    }
    push_visits(tasks, kind, is_tested, passed)
}

// The parts of a node are to be visited, and then its own cell of this kind is made.
fn visit<J: ControlFacts>(
    tasks: &mut Vec<Task>,
    passed: &mut Vec<Handle>,
    unit: &Unit,
    facts: &J,
    handle: Handle,
    is_tested: bool,
    kind: ControlKind,
) -> Result<(), AllocError>
    requires whole { unit.now.first ≡ 0 }
    requires laid { IsLaid unit.now }
    requires lists { KnowsLists (nodes_of unit.now) (J.known facts.now).facts }
    ensures { OnOk result (tasks_seen (judged_unit unit.now (J.known facts.now)) tasks.new.items
        ≡ visits (parts_of (definition.node_where (judged_unit unit.now (J.known facts.now)) handle is_tested))
        ++ Finish (kind_seen name_seen (meaning.node_at (nodes_of unit.now) handle).token kind) (meaning.node_at (nodes_of unit.now) handle).token
        (count_of (parts_of (definition.node_where (judged_unit unit.now (J.known facts.now)) handle is_tested)))
        ∷ tasks_seen (judged_unit unit.now (J.known facts.now)) tasks.old.items) }
{
    unit.each_node_stands_for_one_tree();
    let node_kind = kind_at(unit, handle);
    passed.clear();
    push_passed(passed, unit, facts, handle)?;
    let parts = parts_in(node_kind, is_tested, passed.len());
    tasks.push(Task::Finish(kind, token_at(unit, handle), parts))?;
    push_parts(tasks, node_kind, is_tested, passed.as_slice())
}

// The number of the next cell, if the body may have one more.
fn next_number(cells: &[Cell]) -> Result<u32, AllocError>
    ensures { IfOk result (λ number. (number ≡ length cells.now) × (length cells.now < most_cells)) }
{
    if cells.len() >= MOST_CELLS {
        return Err(AllocError);
    }
    Ok(cells.len() as u32)
}

// A cell is made whose parts are the last roots: those are roots no more.
fn finish(
    cells: &mut Vec<Cell>,
    roots: &mut Vec<u32>,
    kind: ControlKind,
    token: u32,
    parts: usize,
) -> Result<(), AllocError>
    ensures cells { OnOk result (cells_seen name_seen cells.new.items
        ≡ cells_seen name_seen cells.old.items
        ++ record { kind = kind_seen name_seen token kind; token = token; parts = drop (length roots.old.items - parts) roots.old.items } ∷ []) }
    ensures roots { OnOk result (roots.new.items ≡ take (length roots.old.items - parts) roots.old.items ++ length cells.old.items ∷ []) }
    ensures few { OnOk result (length cells.new.items ≤ most_cells) }
{
    let number = next_number(cells.as_slice())?;
    let first = roots.len().saturating_sub(parts);
    let parts = roots.split_off(first)?;
    cells.push(Cell { kind, token, parts })?;
    roots.push(number)?;
    Ok(())
}

/// The cells of the body of a function, as one tree: each behind its parts, and the body's own the last one. What `__builtin_expect` expects
/// stands twice where control goes by its value.
///
/// # Errors
/// Want of memory, which a body of more than 20,000,000 cells is taken for.
pub fn cells_of<J: ControlFacts>(
    alloc: Global,
    unit: &Unit,
    facts: &J,
    function: Handle,
) -> Result<Vec<Cell>, AllocError>
    requires whole { unit.now.first ≡ 0 }
    requires laid { IsLaid unit.now }
    requires lists { KnowsLists (nodes_of unit.now) (J.known facts.now).facts }
    requires tokens { definition.KnowsTokens (nodes_of unit.now) }
    requires kind { meaning.kind_at (nodes_of unit.now) function ≡ kinds.FunctionDefinition }
    requires body { statement_of (judged_unit unit.now (J.known facts.now)) function < end_of unit.now }
    ensures cells { IfOk result (λ cells. cells_seen name_seen cells.items ≡ definition.cells_of (body_of (judged_unit unit.now (J.known facts.now)) function)) }
    ensures few { IfOk result (λ cells. length cells.items ≤ most_cells) }
    ensures before { IfOk result (λ cells. StandBehindParts 0 cells.items) }
    ensures tree { IfOk result (λ cells. (names : Name → List ℕ) → IsOneTree (cells_seen names cells.items)) }
{
    unit.each_node_stands_for_one_tree();
    let mut tasks = Vec::new(alloc);
    let mut passed = Vec::new(alloc);
    let mut cells = Vec::new(alloc);
    let mut roots = Vec::new(alloc);
    let body = body_of(unit, function);
    visit(
        &mut tasks,
        &mut passed,
        unit,
        facts,
        body,
        false,
        ControlKind::Body,
    )?;
    'tasks: while let Some(task) = tasks.pop() {
        match task {
            Task::Visit(handle, is_tested) => {
                let kind = control_kind(unit, facts, handle, is_tested);
                visit(
                    &mut tasks,
                    &mut passed,
                    unit,
                    facts,
                    handle,
                    is_tested,
                    kind,
                )?;
                continue 'tasks;
            }
            Task::Finish(kind, token, parts) => {
                finish(&mut cells, &mut roots, kind, token, parts)?;
            }
        }
    }
    Ok(cells)
}

/// The cells of a body make it, as one tree: its own is the last one, and each other cell is a part once and stands before its cell.
pub fn cells_make_their_body()
    ensures { definition.CellsMakeTheirBody }
{}
