// The answer of an operator.
ghost use Rattle.std.specs.Prelude.{◌≡◌};
ghost use Rattle.meaning_operands.specs.Answers.{operator_answer};
ghost use Rattle.c_types.specs.Operands.{typed_operand};
ghost use Rattle.c_types.specs.Table.{IsTypeId};
ghost use Rattle.bitwise_rules.specs.Seen.{rule_answer_seen};

use crate::parts::{broken_demand, given_identity, is_given_fouled};
use crate::table::law_of;
use c_types::{Operand, Types};
use sparse_model::{Restrict, RuleCode};
use vocabulary::Operator;

/// What an operator says of its operands. Of an assignment operator, `++` and `--` the last two fields are of the
/// place.
#[derive(Clone, Copy)]
pub struct RuleAnswer {
    /// The rule that fails, other than that of a fouled value that is compared or tested.
    pub rule: Option<RuleCode>,
    /// Whether that one fails, through one of these operands.
    pub tested: bool,
    /// The restricted identity of the result.
    pub restrict: Option<Restrict>,
    /// Whether the result is fouled.
    pub fouled: bool,
}

/// What an operator says of two operands. A unary one gets its operand twice, `?:` its two arms. It takes no memory.
pub fn operator_rule(types: &Types, op: Operator, left: Operand, right: Operand) -> RuleAnswer
    requires left { IsTypeId types.now left.of }
    requires right { IsTypeId types.now right.of }
    ensures { rule_answer_seen result ≡ operator_answer op (typed_operand types.now left) (typed_operand types.now right) }
{
    let law = law_of(op);
    RuleAnswer {
        rule: broken_demand(types, law.demand, left, right),
        tested: law.tests && (left.fouled || right.fouled),
        restrict: given_identity(types, law.gives, left, right),
        fouled: is_given_fouled(types, law.foul, left, right),
    }
}
