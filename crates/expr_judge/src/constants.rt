// The constant of an expression is part of what is known of it, since types ask for it (C11 6.6).
ghost use Rattle.std.specs.Prelude.{◌≡◌, ◌<◌};
ghost use Rattle.expr_judge.specs.Constants.{bits_folded, with_bits};

use node_facts::{Folded, NodeFact};

/// The bits of a constant, if it is one.
pub fn bits_folded(constant: Folded) -> Option<u64>
    ensures { result ≡ bits_folded constant }
{
    match constant {
        Folded::Value(constant) => Some(constant.bits),
        Folded::NotConstant => None,
    }
}

/// An expression with a constant of these bits.
pub fn with_bits(fact: NodeFact, bits: Option<u64>) -> NodeFact
    ensures { result ≡ with_bits bits fact }
{
    match fact {
        NodeFact::Expression(mut expression) => {
            expression.node.value.constant = bits;
            NodeFact::Expression(expression)
        }
        other => other,
    }
}
