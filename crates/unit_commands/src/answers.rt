// What is answered of each node of a unit: of an expression what is known of it, or the constraint that it breaks. How that is written
// isn't known here.
ghost use Rattle.std.specs.Prelude.{◌≡◌, ◌+◌, ◌++◌, ◌∷◌, ◌<◌, [], true, IfOk, OnErr, OnOk, get_or, length};
ghost use Rattle.meaning_tree.specs.Laid.{IsLaid};
ghost use Rattle.meaning_tree.specs.Nodes.{end_of};
ghost use Rattle.meaning_typing.specs.Units.{kind_at};
ghost use Rattle.c_types.specs.Table.{Extends};
ghost use Rattle.decl_judge.specs.Units.{nodes_of};
ghost use Rattle.node_surroundings.specs.Seen.{AreSurroundingsOf, surroundings_seen};
ghost use Rattle.node_judge.specs.Known.{table_of};
ghost use Rattle.unit_commands.specs.Answers.{AreAnswers, IsAnswer, IsAnswerBy, nothing};
ghost use Rattle.unit_commands.specs.Asked.{is_asked};
ghost use Rattle.unit_commands.specs.Known.{IsFirstKnown, StaysFirst, next_row};

use c_tree::{Handle, Unit};
use expression_rows::Broken;
use node_facts::NodeFact;
use node_judge::{ExprFault, Known, judge_expr, judge_node};
use node_surroundings::Surroundings;
use sparse_model::{FailureList, NodeKind};
use std::alloc::{AllocError, Global};
use std::marker::Model;

/// What is answered of a node.
#[derive(Clone, Copy)]
pub enum Answer {
    /// This is known of it; nothing, where it isn't asked.
    Known(NodeFact),
    /// It breaks this constraint.
    Breaks(Broken),
}

/// The answers of the nodes of a unit, in the order of their handles.
#[derive(Drop)]
pub struct Answers {
    items: Vec<Answer>,
}

impl Model for Answers {
    ghost use Rattle.std.specs.Prelude.{List};
    ghost use Rattle.unit_commands.specs.declared.answers.Answer.{Answer};

    ghost Value = { List Answer };

    ghost view = { λ answers. answers.items.items };
}

impl Answers {
    /// Of no nodes, in no memory.
    pub fn new(alloc: Global) -> Answers
        ensures { result ≡ [] }
    {
        Answers {
            items: Vec::new(alloc),
        }
    }

    /// Appends the answer of the next node.
    pub fn push(&mut self, answer: Answer) -> Result<(), AllocError>
        ensures { OnOk result (self.new ≡ self.old ++ answer ∷ []) }
    {
        self.items.push(answer)?;
        Ok(())
    }

    /// What is answered of the node with this handle: nothing, where there is none.
    pub fn at(&self, handle: Handle) -> Answer
        ensures { result ≡ get_or self.now handle nothing }
    {
        let index = handle as usize;
        if index < self.items.len() {
            self.items[index]
        } else {
            Answer::Known(NodeFact::Unknown)
        }
    }
}

// Expressions are asked for, but nothing that declares or names a type, and neither assertions nor `return`; all other nodes say
// nothing.
fn is_asked(kind: NodeKind) -> bool
    ensures { result ≡ is_asked kind }
{
    match kind {
        NodeKind::Specifiers
        | NodeKind::StructSpecifier
        | NodeKind::UnionSpecifier
        | NodeKind::EnumSpecifier
        | NodeKind::Enumerator
        | NodeKind::BitFieldWidth
        | NodeKind::Declarator
        | NodeKind::ArrayDeclarator
        | NodeKind::FunctionDeclarator
        | NodeKind::Parameter
        | NodeKind::TypedefName
        | NodeKind::TypeName
        | NodeKind::TypeofType
        | NodeKind::TypeofExpression
        | NodeKind::StaticAssertion
        | NodeKind::TranslationUnit
        | NodeKind::ReturnStatement => false,
        _ => true,
    }
}

// What is answered of an expression.
fn answer_expr(
    alloc: Global,
    unit: &Unit,
    surroundings: &Surroundings,
    known: &mut Known,
    handle: Handle,
) -> Result<Answer, AllocError>
    requires whole { unit.now.first ≡ 0 }
    requires laid { IsLaid unit.now }
    requires node { handle < end_of unit.now }
    requires surroundings { AreSurroundingsOf unit.now surroundings.now }
    requires all { length surroundings.now ≡ length unit.now.nodes }
    requires known { IsFirstKnown (nodes_of unit.now) (surroundings_seen surroundings.now) handle known.old }
    ensures answer { IfOk result (IsAnswerBy (table_of known.new) (next_row (nodes_of unit.now) (surroundings_seen surroundings.now) handle)) }
    ensures keeps { OnOk result (StaysFirst (nodes_of unit.now) (surroundings_seen surroundings.now) handle known.old known.new) }
{
    let mut found = FailureList::new(alloc);
    match judge_expr(alloc, unit, surroundings, known, handle, &mut found) {
        Ok(fact) => Ok(Answer::Known(fact)),
        Err(ExprFault::Constraint(broken)) => Ok(Answer::Breaks(broken)),
        Err(ExprFault::Memory) => Err(AllocError),
    }
}

// What is answered of a node.
fn answer_node(
    alloc: Global,
    unit: &Unit,
    surroundings: &Surroundings,
    known: &mut Known,
    handle: Handle,
) -> Result<Answer, AllocError>
    requires whole { unit.now.first ≡ 0 }
    requires laid { IsLaid unit.now }
    requires node { handle < end_of unit.now }
    requires surroundings { AreSurroundingsOf unit.now surroundings.now }
    requires all { length surroundings.now ≡ length unit.now.nodes }
    requires known { IsFirstKnown (nodes_of unit.now) (surroundings_seen surroundings.now) handle known.old }
    ensures answer { IfOk result (IsAnswer (nodes_of unit.now) (surroundings_seen surroundings.now) (table_of known.new) handle) }
    ensures keeps { OnOk result (StaysFirst (nodes_of unit.now) (surroundings_seen surroundings.now) handle known.old known.new) }
{
    if is_asked(unit.kind(handle)) {
        answer_expr(alloc, unit, surroundings, known, handle)
    } else {
        Ok(Answer::Known(NodeFact::Unknown))
    }
}

// The next node is known, by its row, whatever it breaks.
fn know_node(
    alloc: Global,
    unit: &Unit,
    surroundings: &Surroundings,
    known: &mut Known,
    handle: Handle,
) -> Result<(), AllocError>
    requires whole { unit.now.first ≡ 0 }
    requires laid { IsLaid unit.now }
    requires node { handle < end_of unit.now }
    requires surroundings { AreSurroundingsOf unit.now surroundings.now }
    requires all { length surroundings.now ≡ length unit.now.nodes }
    requires known { IsFirstKnown (nodes_of unit.now) (surroundings_seen surroundings.now) handle known.old }
    ensures known { OnOk result (IsFirstKnown (nodes_of unit.now) (surroundings_seen surroundings.now) (handle + 1) known.new) }
    ensures types { OnOk result (Extends (table_of known.old) (table_of known.new)) }
{
    let mut thrown = FailureList::new(alloc);
    let row = judge_node(alloc, unit, surroundings, known, &mut thrown, handle)?;
    known.add(alloc, unit, surroundings, handle, row.fact)
}

/// What is answered of each node of a unit, whose nodes stand in this, and of which nothing is known yet; then all are known. Each
/// expression is judged by itself. It takes the steps of two judgements of each node.
pub fn answer_nodes(
    alloc: Global,
    unit: &Unit,
    surroundings: &Surroundings,
    known: &mut Known,
) -> Result<Answers, AllocError>
    requires whole { unit.now.first ≡ 0 }
    requires laid { IsLaid unit.now }
    requires surroundings { AreSurroundingsOf unit.now surroundings.now }
    requires all { length surroundings.now ≡ length unit.now.nodes }
    requires known { IsFirstKnown (nodes_of unit.now) (surroundings_seen surroundings.now) 0 known.old }
    ensures all { IfOk result (λ answers. length answers ≡ length (nodes_of unit.now)) }
    ensures each { IfOk result (AreAnswers (nodes_of unit.now) (surroundings_seen surroundings.now) (table_of known.new)) }
    ensures unnamed { OnOk result ((table_of known.new).names ≡ []) }
{
    let mut answers = Answers::new(alloc);
    for handle in 0..unit.len() {
        answers.push(answer_node(alloc, unit, surroundings, known, handle)?)?;
        know_node(alloc, unit, surroundings, known, handle)?;
    }
    Ok(answers)
}
