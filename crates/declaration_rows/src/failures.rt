// Failures whose texts speak of a name alone.
ghost use Rattle.std.specs.Prelude.{◌≡◌};
ghost use Rattle.declaration_rows.specs.Failures.{failure_with};

use sparse_model::{Failure, NameId, RuleCode};

/// This rule fails at a token, where its text tells this name.
pub fn failed_with(rule: RuleCode, token: u32, name: NameId) -> Failure
    ensures { result ≡ failure_with rule token name }
{
    Failure {
        token,
        rule,
        part: 0,
        first: None,
        second: None,
        name,
        number: 0,
        wanted: 0,
    }
}
