// What a row says: what is known, the constraint that is broken, which rule fails, and where a limit is passed.
ghost use Rattle.std.specs.Prelude.{◌≡◌, option_map};
ghost use Rattle.c_types.specs.Table.{TypeTable};
ghost use Rattle.expression_rows.specs.Rows.{broken_seen};
ghost use Rattle.member_declarations.specs.Seen.{known_row, row_breaking, row_seen, row_unless};

use expression_rows::{Broken, lesser};
use node_facts::NodeFact;
use sparse_model::Failure;

/// The row of a width or of a declarator: it fails one rule at most.
#[derive(Clone, Copy)]
pub struct MemberRow {
    /// What is known of it: nothing where it breaks a constraint, or what is asked of a part isn't known.
    pub fact: NodeFact,
    /// Of the constraints that it breaks the least, by the token and then by the number of the error.
    pub broken: Option<Broken>,
    pub failure: Option<Failure>,
}

impl MemberRow {
    /// This is known, and nothing is said.
    pub fn known(fact: NodeFact) -> MemberRow
        ensures { result ≡ known_row fact }
    {
        MemberRow {
            fact,
            broken: None,
            failure: None,
        }
    }

    /// This is known, unless something is broken.
    pub fn unless(broken: Option<Broken>, fact: NodeFact, failure: Option<Failure>) -> MemberRow
        ensures { result ≡ row_unless broken fact failure }
    {
        match broken {
            None => MemberRow {
                fact,
                broken: None,
                failure,
            },
            Some(least) => MemberRow {
                fact: NodeFact::Unknown,
                broken: Some(least),
                failure,
            },
        }
    }

    /// This is broken too, and what is known stays.
    pub fn breaking(self, broken: Option<Broken>) -> MemberRow
        ensures row { (table : TypeTable) → row_seen table result ≡ row_breaking (row_seen table self) (option_map broken_seen broken) }
        ensures fact { result.fact ≡ self.fact }
    {
        MemberRow {
            fact: self.fact,
            broken: lesser(self.broken, broken),
            failure: self.failure,
        }
    }
}
