// What is known of the nodes of a unit, in the order of their handles.
ghost use Rattle.std.specs.Prelude.{◌≡◌, ◌<◌, ◌++◌, ◌∷◌, [], Some, length, map, get_or, slice_get, OnErr, OnOk, option_map};
ghost use Rattle.node_facts.specs.declared.fact.NodeFact.TheVariants as facts;
ghost use Rattle.node_facts.specs.Kept.{expression_kept, fact_kept, mark_kept, named_type_kept, node_kept};

use crate::expression::{ExpressionFact, ExpressionMarks, plain_node};
use crate::fact::NodeFact;
use crate::marks::{NodeMark, NodeMarks};
use c_types::{NodeType, NodeTypes};
use const_fold::Handle;
use std::alloc::{AllocError, Global};
use std::marker::Model;

// The type and the value of a node that has them: an expression, or a type that is named.
fn node_of(fact: NodeFact) -> Option<NodeType>
    ensures { result ≡ node_kept fact }
{
    match fact {
        NodeFact::Expression(expression) => Some(expression.node),
        NodeFact::NamedType(of) => Some(plain_node(of)),
        NodeFact::Unknown => None,
        NodeFact::Specified(_) => None,
        NodeFact::Declared(_) => None,
    }
}

fn mark_of(fact: NodeFact) -> NodeMark
    ensures { result ≡ mark_kept fact }
{
    match fact {
        NodeFact::Unknown => NodeMark::Unknown,
        NodeFact::Expression(expression) => NodeMark::Expression(expression.marks),
        NodeFact::Specified(specifiers) => NodeMark::Specified(specifiers),
        NodeFact::Declared(declaration) => NodeMark::Declared(declaration),
        NodeFact::NamedType(_) => NodeMark::NamedType,
    }
}

// An expression with these marks.
fn expression_of(node: Option<NodeType>, marks: ExpressionMarks) -> NodeFact
    ensures { result ≡ expression_kept marks node }
{
    match node {
        Some(node) => NodeFact::Expression(ExpressionFact { node, marks }),
        None => NodeFact::Unknown,
    }
}

fn named_type_of(node: Option<NodeType>) -> NodeFact
    ensures { result ≡ named_type_kept node }
{
    match node {
        Some(node) => NodeFact::NamedType(node.of),
        None => NodeFact::Unknown,
    }
}

// What these two were kept of.
fn fact_of(node: Option<NodeType>, mark: NodeMark) -> NodeFact
    ensures { result ≡ fact_kept node mark }
{
    match mark {
        NodeMark::Unknown => NodeFact::Unknown,
        NodeMark::Expression(marks) => expression_of(node, marks),
        NodeMark::Specified(specifiers) => NodeFact::Specified(specifiers),
        NodeMark::Declared(declaration) => NodeFact::Declared(declaration),
        NodeMark::NamedType => named_type_of(node),
    }
}

/// What is known of the nodes of a unit, in the order of their handles. A node takes twelve bytes, and values and marks stand once
/// each.
#[derive(Drop)]
pub struct NodeFacts {
    types: NodeTypes,
    marks: NodeMarks,
}

impl Model for NodeFacts {
    ghost use Rattle.std.specs.Prelude.{List};
    ghost use Rattle.node_facts.specs.declared.fact.NodeFact.{NodeFact};
    ghost use Rattle.node_facts.specs.Kept.{AreKept, facts_kept};

    ghost Value = { List NodeFact };

    ghost view = { λ kept. facts_kept kept.types kept.marks };

    ghost invariant = { λ kept. AreKept kept.types kept.marks };
}

impl NodeFacts {
    /// No nodes, in no memory.
    pub fn new(alloc: Global) -> NodeFacts
        ensures { result ≡ [] }
    {
        NodeFacts {
            types: NodeTypes::new(alloc),
            marks: NodeMarks::new(alloc),
        }
    }

    /// Appends what is known of the next node. A refusal, which is want of memory, changes nothing.
    #[tactic(auto, using(crate::proofs::KeptLemmas::pushed, crate::proofs::KeptLemmas::pushed_view))]
    pub fn push(&mut self, fact: NodeFact) -> Result<(), AllocError>
        ensures ok { OnOk result (self.new ≡ self.old ++ fact ∷ []) }
        ensures err { OnErr result (self.new ≡ self.old) }
    {
        self.marks.push(mark_of(fact))?;
        match self.types.push(node_of(fact)) {
            Ok(()) => Ok(()),
            Err((fault, _)) => {
                self.marks.pop();
                Err(fault)
            }
        }
    }

    /// Of how many nodes something is kept.
    pub fn len(&self) -> usize
        ensures { result ≡ length self.now }
    {
        self.marks.len()
    }

    /// What is known of the node with this handle: nothing, where there is none.
    pub fn at(&self, handle: Handle) -> NodeFact
        ensures { result ≡ get_or self.now handle facts.Unknown }
    {
        let index = handle as usize;
        if index < self.types.len() {
            fact_of(self.types.get(index), self.marks.get(index))
        } else {
            NodeFact::Unknown
        }
    }

    /// The types and the constants of those that have them: expressions, and types that are named.
    pub fn types(&self) -> &NodeTypes
        ensures { result.now ≡ map node_kept self.now }
    {
        &self.types
    }
}
