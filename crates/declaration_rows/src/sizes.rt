// Sizes of arrays (C11 6.7.6.2 p1): the nodes between brackets and what is known of them in, the least that they break out. Types
// of arrays aren't known here.
ghost use Rattle.std.specs.Prelude.{◌≡◌, All, Some, if◌then◌else◌, option_map};
ghost use Rattle.vocabulary.specs.declared.error_kind.ErrorKind.TheVariants.{VariableLengthArray};
ghost use Rattle.meaning_operands.specs.Operands.{is_integer};
ghost use Rattle.meaning_rules.specs.Rules.{least_broken};
ghost use Rattle.meaning_types.specs.Spaces.{is_void};
ghost use Rattle.meaning_typing.specs.DeclarationRows as meaning;
ghost use Rattle.meaning_typing.specs.Facts.{Expression, fact_at, type_of_value};
ghost use Rattle.meaning_typing.specs.Rows.{breaks_at, void_used};
ghost use Rattle.meaning_typing.specs.Units.{node_at as node_of_unit};
ghost use Rattle.decl_judge.specs.Units.{handles_of, nodes_of};
ghost use Rattle.expression_rows.specs.Rows.{broken_seen};
ghost use Rattle.node_facts.specs.Facts.{IsKnownFact, IsKnownNodeFact, fact_seen, node_seen, nodes_seen};

use c_tree::{Handle, Unit};
use c_types::Types;
use decl_judge::token_at;
use expression_rows::{Broken, broken_at, is_void, lesser, number_of};
use node_facts::{ExpressionFact, NodeFact, NodeFacts};
use sparse_model::ErrorKind;
use tag_list::TagList;

fn below_zero_broken(token: u32, number: i128) -> Option<Broken>
    ensures { option_map broken_seen result ≡ least_broken (meaning.number_broken token (Some number)) }
{
    if number < 0 {
        broken_at(ErrorKind::NegativeArraySize, token)
    } else {
        None
    }
}

// A size is a constant that isn't below 0.
fn number_broken(token: u32, number: Option<i128>) -> Option<Broken>
    ensures { option_map broken_seen result ≡ least_broken (meaning.number_broken token number) }
{
    match number {
        None => broken_at(ErrorKind::VariableLengthArray, token),
        Some(number) => below_zero_broken(token, number),
    }
}

// Whether the value of an expression is an integer: neither an array nor a function is, nor what becomes of it.
#[tactic(auto, using(crate::proofs::TypeLemmas::integer_value_told))]
fn is_integer_value(types: &Types, size: ExpressionFact) -> bool
    requires { IsKnownFact types.now size }
    ensures { result ≡ is_integer (type_of_value (fact_seen types.now size)) }
{
    types.is_integer(size.node.of)
}

#[tactic(auto, using(crate::proofs::TypeLemmas::void_value_told))]
fn is_void_value(types: &Types, size: ExpressionFact) -> bool
    requires { IsKnownFact types.now size }
    ensures { result ≡ is_void (type_of_value (fact_seen types.now size)) }
{
    is_void(types, size.node.of)
}

fn void_used(types: &Types, token: u32, size: ExpressionFact) -> Option<Broken>
    requires { IsKnownFact types.now size }
    ensures { option_map broken_seen result ≡ least_broken (void_used token (fact_seen types.now size)) }
{
    if is_void_value(types, size) {
        broken_at(ErrorKind::VoidValueUsed, token)
    } else {
        None
    }
}

fn constant_broken(types: &Types, token: u32, size: ExpressionFact) -> Option<Broken>
    requires { IsKnownFact types.now size }
    ensures { option_map broken_seen result ≡ least_broken (if is_integer (type_of_value (fact_seen types.now size)) then meaning.number_broken token (fact_seen types.now size).constant else breaks_at VariableLengthArray token) }
{
    if is_integer_value(types, size) {
        number_broken(token, number_of(types, size))
    } else {
        broken_at(ErrorKind::VariableLengthArray, token)
    }
}

#[tactic(auto, using(crate::proofs::LeastLemmas::least_two))]
fn expression_broken(types: &Types, token: u32, size: ExpressionFact) -> Option<Broken>
    requires { IsKnownFact types.now size }
    ensures { option_map broken_seen result ≡ least_broken (meaning.size_broken token (Expression (fact_seen types.now size))) }
{
    lesser(
        void_used(types, token, size),
        constant_broken(types, token, size),
    )
}

fn size_broken(types: &Types, token: u32, size: NodeFact) -> Option<Broken>
    requires { IsKnownNodeFact types.now size }
    ensures { option_map broken_seen result ≡ least_broken (meaning.size_broken token (node_seen types.now size)) }
{
    match size {
        NodeFact::Expression(expression) => expression_broken(types, token, expression),
        _ => None,
    }
}

fn size_broken_at(unit: &Unit, types: &Types, facts: &NodeFacts, size: Handle) -> Option<Broken>
    requires whole { unit.now.first ≡ 0 }
    requires facts { All (IsKnownNodeFact types.now) facts.now }
    ensures { option_map broken_seen result ≡ least_broken (meaning.size_broken (node_of_unit (nodes_of unit.now) size).token (fact_at (nodes_seen types.now facts.now) size)) }
{
    size_broken(types, token_at(unit, size), facts.at(size))
}

/// The least that the sizes between the brackets of an array break, each at its own token: each is a constant integer that isn't
/// below 0.
pub fn sizes_broken(
    unit: &Unit,
    types: &Types,
    facts: &NodeFacts,
    children: &TagList,
) -> Option<Broken>
    requires whole { unit.now.first ≡ 0 }
    requires facts { All (IsKnownNodeFact types.now) facts.now }
    ensures { option_map broken_seen result ≡ least_broken (meaning.sizes_broken (nodes_of unit.now) (nodes_seen types.now facts.now) (handles_of children.now)) }
{
    let mut least = None;
    for (child, _) in children.iter() {
        least = lesser(least, size_broken_at(unit, types, facts, child));
    }
    least
}
