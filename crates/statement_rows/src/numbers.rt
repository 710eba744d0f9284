// Numbers of the labels of a switch (C11 6.8.4.2 p5). Control paths will go by them too.
ghost use Rattle.std.specs.Prelude.{◌≡◌, IfSome, Some};
ghost use Rattle.meaning_typing.specs.Operators as operators;
ghost use Rattle.meaning_statements.specs.Statements as meaning;
ghost use Rattle.expression_rows.specs.Facts.{IsValued, valued_part, valued_seen};
ghost use Rattle.expression_rows.specs.Sorts.{sort_in};

use c_types::{Outline, Types};
use expression_rows::{Valued, number_of};
use node_facts::label_number;
use sparse_model::IntKind;

fn kind_in(outline: Outline) -> Option<IntKind>
    ensures { result ≡ meaning.kind_of_sort (sort_in outline) }
{
    match outline {
        Outline::Integer(kind) => Some(kind),
        Outline::Restricted(kind, _) => Some(kind),
        _ => None,
    }
}

// The kind of an integer's base.
#[tactic(auto, using(expression_rows::proofs::SortLemmas::sort_told))]
fn kind_of_value(types: &Types, of: Valued) -> Option<IntKind>
    requires { IsValued types.now of }
    ensures { result ≡ meaning.kind_of_sort (operators.value_sort (valued_seen types.now of)) }
{
    kind_in(types.outline(of.value))
}

fn integer_kind(types: &Types, of: Option<Valued>) -> Option<IntKind>
    requires { IfSome of (IsValued types.now) }
    ensures { result ≡ meaning.integer_kind (valued_part types.now of) }
{
    match of {
        None => None,
        Some(of) => kind_of_value(types, of),
    }
}

fn constant_if(kind: Option<IntKind>, number: Option<i128>) -> Option<i128>
    ensures { result ≡ meaning.constant_if kind number }
{
    match kind {
        Some(_) => number,
        None => None,
    }
}

/// An integer constant.
pub fn constant_of(types: &Types, label: Valued) -> Option<i128>
    requires { IsValued types.now label }
    ensures { result ≡ meaning.label_constant (valued_part types.now (Some label)) }
{
    constant_if(kind_of_value(types, label), number_of(types, label.fact))
}

fn label_constant(types: &Types, label: Option<Valued>) -> Option<i128>
    requires { IfSome label (IsValued types.now) }
    ensures { result ≡ meaning.label_constant (valued_part types.now label) }
{
    match label {
        None => None,
        Some(label) => constant_of(types, label),
    }
}

fn number_under(kind: Option<IntKind>, number: Option<i128>) -> Option<i128>
    ensures { result ≡ meaning.number_under kind number }
{
    match (kind, number) {
        (Some(kind), Some(number)) => Some(label_number(kind, number)),
        _ => None,
    }
}

/// The number of a label under a switch value, where both are known: two labels with one number are equal. It takes a few steps.
pub fn number_of_label(
    types: &Types,
    switched: Option<Valued>,
    label: Option<Valued>,
) -> Option<i128>
    requires switched { IfSome switched (IsValued types.now) }
    requires label { IfSome label (IsValued types.now) }
    ensures { result ≡ meaning.number_of_label (valued_part types.now switched) (valued_part types.now label) }
{
    number_under(integer_kind(types, switched), label_constant(types, label))
}
