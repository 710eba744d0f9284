// Numbers of constants (C11 6.6 p6) and of labels (6.8.4.2 p5), by what is known of expressions. No type joins the table.
ghost use Rattle.std.specs.Prelude.{◌≡◌};
ghost use Rattle.meaning_statements.specs.Statements as statements;
ghost use Rattle.meaning_typing.specs.Facts as meaning;
ghost use Rattle.node_facts.specs.Facts.{IsKnownFact, IsKnownNodeFact, fact_seen, node_seen};
ghost use Rattle.meaning_contexts.specs.Units.{constant_known, number_or_zero};

use c_types::Types;
use const_fold::{label_number, part_of};
use expression_rows::number_of;
use node_facts::{ExpressionFact, NodeFact};
use sparse_model::IntKind;

/// The number of an expression that is constant.
pub fn constant_in(types: &Types, fact: NodeFact) -> Option<i128>
    requires { IsKnownNodeFact types.now fact }
    ensures { result ≡ constant_known (node_seen types.now fact) }
{
    match fact {
        NodeFact::Expression(expression) => number_of(types, expression),
        NodeFact::Unknown => None,
        NodeFact::Specified(_) => None,
        NodeFact::Declared(_) => None,
        NodeFact::NamedType(_) => None,
    }
}

// The kind of its value, where that is an integer.
fn kind_of_value(types: &Types, expression: ExpressionFact) -> Option<IntKind>
    requires { IsKnownFact types.now expression }
    ensures { result ≡ statements.integer_kind (meaning.Expression (fact_seen types.now expression)) }
{
    part_of(types, expression.node).of.kind()
}

fn integer_kind(types: &Types, fact: NodeFact) -> Option<IntKind>
    requires { IsKnownNodeFact types.now fact }
    ensures { result ≡ statements.integer_kind (node_seen types.now fact) }
{
    match fact {
        NodeFact::Expression(expression) => kind_of_value(types, expression),
        NodeFact::Unknown => None,
        NodeFact::Specified(_) => None,
        NodeFact::Declared(_) => None,
        NodeFact::NamedType(_) => None,
    }
}

fn constant_if(kind: Option<IntKind>, number: Option<i128>) -> Option<i128>
    ensures { result ≡ statements.constant_if kind number }
{
    match kind {
        Some(_) => number,
        None => None,
    }
}

// An integer constant.
#[tactic(auto, using(crate::proofs::NumberLemmas::label_told))]
fn label_constant(types: &Types, fact: NodeFact) -> Option<i128>
    requires { IsKnownNodeFact types.now fact }
    ensures { result ≡ statements.label_constant (node_seen types.now fact) }
{
    constant_if(integer_kind(types, fact), constant_in(types, fact))
}

fn number_under(kind: Option<IntKind>, number: Option<i128>) -> Option<i128>
    ensures { result ≡ statements.number_under kind number }
{
    match (kind, number) {
        (Some(kind), Some(number)) => Some(label_number(kind, number)),
        _ => None,
    }
}

/// The number of a label under the value of its switch, or 0 where one of them isn't known.
pub fn number_of_label(types: &Types, switched: NodeFact, label: NodeFact) -> i128
    requires switched { IsKnownNodeFact types.now switched }
    requires label { IsKnownNodeFact types.now label }
    ensures { result ≡ number_or_zero (statements.number_of_label (node_seen types.now switched) (node_seen types.now label)) }
{
    match number_under(integer_kind(types, switched), label_constant(types, label)) {
        Some(number) => number,
        None => 0,
    }
}
