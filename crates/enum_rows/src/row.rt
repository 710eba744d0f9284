// What a row says: what is known, the constraint that is broken, and which rule fails.
ghost use Rattle.std.specs.Prelude.{◌≡◌};
ghost use Rattle.node_facts.specs.declared.fact.NodeFact.TheVariants as facts;
ghost use Rattle.enum_rows.specs.Rows.{broken_row, known_row};

use expression_rows::Broken;
use node_facts::NodeFact;
use sparse_model::{ErrorKind, Failure, NameId};

/// The row of an enumerator or an enumeration: each breaks one constraint at most, and fails one rule.
#[derive(Clone, Copy)]
pub struct EnumRow {
    /// What is known of it: nothing where it breaks a constraint, or what is asked of a part isn't known.
    pub fact: NodeFact,
    pub broken: Option<Broken>,
    pub failure: Option<Failure>,
}

impl EnumRow {
    /// This is known, and nothing is said.
    pub fn known(fact: NodeFact) -> EnumRow
        ensures { result ≡ known_row fact }
    {
        EnumRow {
            fact,
            broken: None,
            failure: None,
        }
    }

    /// Nothing is known, and nothing is said.
    pub fn nothing() -> EnumRow
        ensures { result ≡ known_row facts.Unknown }
    {
        EnumRow::known(NodeFact::Unknown)
    }

    /// Nothing is known, and this constraint is broken at this token.
    pub fn breaks(constraint: ErrorKind, token: u32) -> EnumRow
        ensures { result ≡ broken_row constraint token }
    {
        let broken = Broken {
            constraint,
            token,
            name: NameId(0),
        };
        EnumRow {
            fact: NodeFact::Unknown,
            broken: Some(broken),
            failure: None,
        }
    }
}
