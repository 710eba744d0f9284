// What is known of the nodes of a unit, in the order of their handles. Which node has which type isn't known here.
ghost use Rattle.std.specs.Prelude.{◌≡◌, ◌<◌, ◌≤◌, ◌++◌, ◌∷◌, ◌^◌, [], Some, length, slice_get, slice_set, OnErr, OnOk, IfErr, IfOk};
ghost use Rattle.c_types.specs.Nodes.{node_value_at};
ghost use Rattle.c_types.specs.Table.{IsLonger};

use indexmap::IndexSet;
use sparse_model::TypeId;
use std::alloc::{AllocError, Global};
use std::marker::Model;

/// How many different values may be kept.
const MAX_VALUES: usize = 1 << 30;

/// What is known of the value of a node, its type apart.
#[derive(Clone, Copy, Debug, PartialEq, Eq, Hash)]
pub struct NodeValue {
    /// Whether bits may be set that its type hasn't.
    pub fouled: bool,
    /// How many bits a bit-field has.
    pub width: Option<u32>,
    /// The number of its constant modulo 2^64. The kind of the constant is that of the type.
    pub constant: Option<u64>,
}

/// The type of a node, and what is known of its value.
#[derive(Clone, Copy, Debug, PartialEq, Eq)]
pub struct NodeType {
    /// The type that a type name names; of an expression the type of the place that it designates, or else of its
    /// value.
    pub of: TypeId,
    pub value: NodeValue,
}

// The different values of nodes, each once. A node without a type has none.
#[derive(Drop)]
pub struct NodeValues {
    pub set: IndexSet<Option<NodeValue>>,
}

impl NodeValues {
    // The number of a value, which joins the others if it is new.
    fn number_of(&mut self, value: Option<NodeValue>) -> Result<u32, AllocError>
        ensures stands { IfOk result (λ number. slice_get self.new.set.keys number ≡ Some value) }
        ensures grows { IsLonger self.old.set.keys self.new.set.keys }
    {
        if self.set.len() >= MAX_VALUES {
            return Err(AllocError);
        }
        let (number, _) = self.set.insert_full(value)?;
        Ok(number as u32)
    }

    // The value with this number.
    fn get(&self, number: u32) -> Option<NodeValue>
        ensures { result ≡ node_value_at self.now.set.keys number }
    {
        match self.set.get_index(number as usize) {
            Some(&value) => value,
            None => None,
        }
    }
}

// The type of a node, and the number of its value.
#[derive(Clone, Copy)]
pub struct NodeEntry {
    pub of: TypeId,
    pub value: u32,
}

/// For each node its type and what is known of its value, or none. A node takes eight bytes, and nodes whose values are
/// alike share one.
#[derive(Drop)]
pub struct NodeTypes {
    entries: Vec<NodeEntry>,
    values: NodeValues,
}

impl Model for NodeTypes {
    ghost use Rattle.std.specs.Prelude.{List, Option, length};
    ghost use Rattle.c_types.specs.declared.nodes.NodeType.{NodeType};
    ghost use Rattle.c_types.specs.Nodes.{AreWithin, nodes_in};

    ghost Value = { List (Option NodeType) };

    ghost view = { λ nodes. nodes_in nodes.values.set.keys nodes.entries.items };

    ghost invariant = { λ nodes. AreWithin (length nodes.values.set.keys) nodes.entries.items };
}

impl NodeTypes {
    /// No nodes, in no memory.
    pub fn new(alloc: Global) -> NodeTypes
        ensures { result ≡ [] }
    {
        NodeTypes {
            entries: Vec::new(alloc),
            values: NodeValues {
                set: IndexSet::new(alloc),
            },
        }
    }

    /// Appends what is known of the next node, or hands it back.
    pub fn push(&mut self, node: Option<NodeType>) -> Result<(), (AllocError, Option<NodeType>)>
        ensures ok { OnOk result (self.new ≡ self.old ++ node ∷ []) }
        ensures err { OnErr result (self.new ≡ self.old) }
        ensures back { IfErr result (λ refused. refused.1 ≡ node) }
    {
        match self.append(node) {
            Ok(()) => Ok(()),
            Err(fault) => Err((fault, node)),
        }
    }

    // Appends what is known of the next node.
    fn append(&mut self, node: Option<NodeType>) -> Result<(), AllocError>
        ensures ok { OnOk result (self.new ≡ self.old ++ node ∷ []) }
        ensures err { OnErr result (self.new ≡ self.old) }
    {
        let entry = self.values.entry(node)?;
        append_entry(&mut self.entries, entry)
    }

    /// Changes what is known of a node, or hands it back.
    pub fn set(
        &mut self,
        index: usize,
        node: Option<NodeType>,
    ) -> Result<(), (AllocError, Option<NodeType>)>
        requires { index < length self.old }
        ensures ok { OnOk result (self.new ≡ slice_set self.old index node) }
        ensures err { OnErr result (self.new ≡ self.old) }
        ensures back { IfErr result (λ refused. refused.1 ≡ node) }
    {
        match self.replace(index, node) {
            Ok(()) => Ok(()),
            Err(fault) => Err((fault, node)),
        }
    }

    // Changes what is known of a node.
    fn replace(&mut self, index: usize, node: Option<NodeType>) -> Result<(), AllocError>
        requires { index < length self.old }
        ensures ok { OnOk result (self.new ≡ slice_set self.old index node) }
        ensures err { OnErr result (self.new ≡ self.old) }
    {
        let entry = self.values.entry(node)?;
        self.entries[index] = entry;
        Ok(())
    }

    /// How many nodes there are.
    pub fn len(&self) -> usize
        ensures { result ≡ length self.now }
    {
        self.entries.len()
    }

    /// What is known of a node.
    pub fn get(&self, index: usize) -> Option<NodeType>
        requires { index < length self.now }
        ensures { slice_get self.now index ≡ Some result }
    {
        let entry = self.entries[index];
        self.values.node(entry)
    }
}

impl NodeValues {
    ghost use Rattle.c_types.specs.Nodes.{node_in};

    // What is kept of a node, whose value joins the others if it is new.
    fn entry(&mut self, node: Option<NodeType>) -> Result<NodeEntry, AllocError>
        ensures stands { IfOk result (λ entry. node_in self.new.set.keys entry ≡ node) }
        ensures within { IfOk result (λ entry. entry.value < length self.new.set.keys) }
        ensures grows { IsLonger self.old.set.keys self.new.set.keys }
    {
        match node {
            Some(NodeType { of, value }) => Ok(NodeEntry {
                of,
                value: self.number_of(Some(value))?,
            }),
            None => Ok(NodeEntry {
                of: TypeId(0),
                value: self.number_of(None)?,
            }),
        }
    }

    // What an entry stands for.
    fn node(&self, entry: NodeEntry) -> Option<NodeType>
        ensures { result ≡ node_in self.now.set.keys entry }
    {
        let value = self.get(entry.value)?;
        Some(NodeType {
            of: entry.of,
            value,
        })
    }
}

// Appends an entry.
fn append_entry(entries: &mut Vec<NodeEntry>, entry: NodeEntry) -> Result<(), AllocError>
    ensures ok { OnOk result (entries.new.items ≡ entries.old.items ++ entry ∷ []) }
    ensures err { OnErr result (entries.new.items ≡ entries.old.items) }
{
    entries.push(entry)?;
    Ok(())
}
