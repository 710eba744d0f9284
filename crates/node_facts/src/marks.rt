// What is kept of the nodes of a unit beside their types and values, in the order of their handles.
ghost use Rattle.std.specs.Prelude.{◌≡◌, ◌<◌, ◌-◌, ◌++◌, ◌∷◌, [], Some, length, slice_get, take, IfOk, OnErr, OnOk};
ghost use Rattle.c_types.specs.Table.{IsLonger};

use crate::declared::{DeclaredFact, SpecifiedFact};
use crate::expression::ExpressionMarks;
use indexmap::IndexSet;
use std::alloc::{AllocError, Global};
use std::marker::Model;

/// How many different marks may be kept.
const MAX_MARKS: usize = 1 << 30;

/// What is kept of a node beside its type and its value.
#[derive(Clone, Copy, Debug, PartialEq, Eq, Hash)]
pub enum NodeMark {
    Unknown,
    Expression(ExpressionMarks),
    Specified(SpecifiedFact),
    Declared(DeclaredFact),
    NamedType,
}

/// The marks of nodes. A node takes four bytes, and nodes whose marks are alike share one.
#[derive(Drop)]
pub struct NodeMarks {
    numbers: Vec<u32>,
    set: IndexSet<NodeMark>,
}

impl Model for NodeMarks {
    ghost use Rattle.std.specs.Prelude.{List, length};
    ghost use Rattle.node_facts.specs.declared.marks.NodeMark.{NodeMark};
    ghost use Rattle.node_facts.specs.Marks.{AreWithin, marks_in};

    ghost Value = { List NodeMark };

    ghost view = { λ marks. marks_in marks.set.keys marks.numbers.items };

    ghost invariant = { λ marks. AreWithin (length marks.set.keys) marks.numbers.items };
}

// The number of a mark, which joins the others if it is new.
fn number_of(set: &mut IndexSet<NodeMark>, mark: NodeMark) -> Result<u32, AllocError>
    ensures stands { IfOk result (λ number. slice_get set.new.keys number ≡ Some mark) }
    ensures grows { IsLonger set.old.keys set.new.keys }
{
    if set.len() >= MAX_MARKS {
        return Err(AllocError);
    }
    let (number, _) = set.insert_full(mark)?;
    Ok(number as u32)
}

// Appends a number.
fn append(numbers: &mut Vec<u32>, number: u32) -> Result<(), AllocError>
    ensures ok { OnOk result (numbers.new.items ≡ numbers.old.items ++ number ∷ []) }
    ensures err { OnErr result (numbers.new.items ≡ numbers.old.items) }
{
    numbers.push(number)?;
    Ok(())
}

impl NodeMarks {
    /// No nodes, in no memory.
    pub fn new(alloc: Global) -> NodeMarks
        ensures { result ≡ [] }
    {
        NodeMarks {
            numbers: Vec::new(alloc),
            set: IndexSet::new(alloc),
        }
    }

    /// Appends the mark of the next node. A refusal, which is want of memory, changes nothing.
    pub fn push(&mut self, mark: NodeMark) -> Result<(), AllocError>
        ensures ok { OnOk result (self.new ≡ self.old ++ mark ∷ []) }
        ensures err { OnErr result (self.new ≡ self.old) }
    {
        let number = number_of(&mut self.set, mark)?;
        append(&mut self.numbers, number)
    }

    /// Drops the mark of the last node.
    pub fn pop(&mut self)
        ensures { self.new ≡ take (length self.old - 1) self.old }
    {
        self.numbers.pop();
    }

    /// How many nodes there are.
    pub fn len(&self) -> usize
        ensures { result ≡ length self.now }
    {
        self.numbers.len()
    }

    /// The mark of a node.
    pub fn get(&self, index: usize) -> NodeMark
        requires { index < length self.now }
        ensures { slice_get self.now index ≡ Some result }
    {
        match self.set.get_index(self.numbers[index] as usize) {
            Some(&mark) => mark,
            None => NodeMark::Unknown,
        }
    }
}
