// What is known of an expression.
ghost use Rattle.std.specs.Prelude.{◌≡◌};
ghost use Rattle.node_facts.specs.Facts.{plain_node};

use c_types::{NodeType, NodeValue};
use sparse_model::TypeId;

/// How far an expression is an address constant (C11 6.6 p9).
#[derive(Clone, Copy, Debug, PartialEq, Eq, Hash)]
pub enum Addressed {
    NotAddress,
    /// It designates a place whose address is one.
    ConstantPlace,
    /// Its value is one.
    ConstantAddress,
}

/// What is known of an expression besides its type and its value.
#[derive(Clone, Copy, Debug, PartialEq, Eq, Hash)]
pub struct ExpressionMarks {
    /// It designates a place, or a function.
    pub is_place: bool,
    /// It is a null pointer constant of type `void *` (6.3.2.3 p3).
    pub is_null: bool,
    /// Its address may not be taken, since it was declared `register` (6.5.3.2 p1).
    pub is_register: bool,
    /// It is a string literal (6.7.9 p14).
    pub is_string: bool,
    pub address: Addressed,
}

/// What is known of an expression. Its type and the value are kept as those of any node; the marks take five bytes.
#[derive(Clone, Copy, Debug, PartialEq, Eq)]
pub struct ExpressionFact {
    /// Its type is that of the place that it designates, or else of its value.
    pub node: NodeType,
    pub marks: ExpressionMarks,
}

/// A node of this type of whose value nothing is known.
pub fn plain_node(of: TypeId) -> NodeType
    ensures { result ≡ plain_node of }
{
    NodeType {
        of,
        value: NodeValue {
            fouled: false,
            width: None,
            constant: None,
        },
    }
}

impl ExpressionMarks {
    ghost use Rattle.node_facts.specs.Facts.{no_marks};

    /// None.
    pub fn none() -> ExpressionMarks
        ensures { result ≡ no_marks }
    {
        ExpressionMarks {
            is_place: false,
            is_null: false,
            is_register: false,
            is_string: false,
            address: Addressed::NotAddress,
        }
    }
}

impl ExpressionFact {
    ghost use Rattle.node_facts.specs.Facts.{place_of, value_of};

    /// A value of this type, of which nothing else is known.
    pub fn value(of: TypeId) -> ExpressionFact
        ensures { result ≡ value_of of }
    {
        ExpressionFact {
            node: plain_node(of),
            marks: ExpressionMarks::none(),
        }
    }

    /// A place of this type.
    pub fn place(of: TypeId) -> ExpressionFact
        ensures { result ≡ place_of of }
    {
        ExpressionFact {
            node: plain_node(of),
            marks: ExpressionMarks {
                is_place: true,
                ..ExpressionMarks::none()
            },
        }
    }
}
