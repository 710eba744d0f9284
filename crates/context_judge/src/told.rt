// The answer over the paths of a function, as a failure. No type joins the table for it.
ghost use Rattle.std.specs.Prelude.{◌≡◌, ℕ, IfSome, None, pos};
ghost use Rattle.meaning_contexts.specs.Failures as definition;
ghost use Rattle.c_types.specs.Table.{TypeTable};
ghost use Rattle.node_facts.specs.Facts.{name_seen};
ghost use Rattle.expression_rows.specs.Rows.{IsKnownFailure, failure_listed, failure_seen};
ghost use Rattle.control_flow.specs.Seen.{answer_of};

use control_flow::ContextAnswer;
use sparse_model::{Failure, NameId};
use vocabulary::RuleCode;

// A rule fails so in the function with this name.
fn imbalance(rule: RuleCode, token: u32, name: NameId, found: i64, wanted: i64) -> Failure
    ensures seen { (table : TypeTable) → failure_seen table result ≡ definition.imbalance rule token (name_seen name) found wanted }
    ensures known { (table : TypeTable) → IsKnownFailure table result }
{
    Failure {
        token,
        rule,
        part: 0,
        first: None,
        second: None,
        name,
        number: i128::from(found),
        wanted: i128::from(wanted),
    }
}

/// What is told of a function with this name that is to be left with this count.
pub(crate) fn failure_told(name: NameId, leaves: i64, answer: ContextAnswer) -> Option<Failure>
    ensures seen { (table : TypeTable) (count : ℕ) → leaves ≡ pos count → failure_listed table result ≡ definition.failures_told (name_seen name) count (answer_of answer) }
    ensures known { (table : TypeTable) → IfSome result (IsKnownFailure table) }
{
    match answer {
        ContextAnswer::Balanced => None,
        ContextAnswer::Different(token) => Some(imbalance(RuleCode::C1, token, name, 0, 0)),
        ContextAnswer::Below(token) => Some(imbalance(RuleCode::C2, token, name, 0, 0)),
        ContextAnswer::WrongExit(token, found) => {
            Some(imbalance(RuleCode::C3, token, name, found, leaves))
        }
    }
}
