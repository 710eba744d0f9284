// Numbers of widths (C11 6.7.2.1 p4): what is known of a width in, whether a bit-field of a kind may have so many bits out.
ghost use Rattle.std.specs.Prelude.{◌≡◌, Some};
ghost use Rattle.meaning_typing.specs.MemberRows as meaning;
ghost use Rattle.node_facts.specs.Facts.{IsKnownNodeFact, node_seen};

use c_types::{Types, bits};
use expression_rows::number_of;
use node_facts::NodeFact;
use sparse_model::IntKind;

// Not below 0, no more than the kind has, and with a name not 0.
#[tactic(auto, using(crate::proofs::NumberLemmas::numbers))]
fn is_good_number(is_named: bool, kind: IntKind, number: i128) -> bool
    ensures { result ≡ meaning.is_good_number is_named kind (Some number) }
{
    number >= 0 && number <= i128::from(bits(kind)) && !(is_named && number == 0)
}

fn is_good_if(is_named: bool, kind: IntKind, number: Option<i128>) -> bool
    ensures { result ≡ meaning.is_good_number is_named kind number }
{
    match number {
        Some(number) => is_good_number(is_named, kind, number),
        None => false,
    }
}

/// Whether a bit-field of this kind may have such a width. Of what isn't known it isn't told that it is no constant.
pub fn is_good_width(types: &Types, is_named: bool, kind: IntKind, size: NodeFact) -> bool
    requires { IsKnownNodeFact types.now size }
    ensures { result ≡ meaning.is_good_width is_named kind (node_seen types.now size) }
{
    match size {
        NodeFact::Expression(expression) => {
            is_good_if(is_named, kind, number_of(types, expression))
        }
        _ => true,
    }
}

#[tactic(auto, using(crate::proofs::NumberLemmas::numbers))]
fn is_number_one(number: Option<i128>) -> bool
    ensures { result ≡ meaning.is_number_one number }
{
    match number {
        Some(number) => number == 1,
        None => false,
    }
}

/// Whether a width is 1.
pub fn is_one(types: &Types, size: NodeFact) -> bool
    requires { IsKnownNodeFact types.now size }
    ensures { result ≡ meaning.is_one (node_seen types.now size) }
{
    match size {
        NodeFact::Expression(expression) => is_number_one(number_of(types, expression)),
        _ => false,
    }
}
