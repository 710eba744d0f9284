// What a row says: what is known, and the constraint that is broken.
ghost use Rattle.std.specs.Prelude.{◌≡◌};
ghost use Rattle.tag_rows.specs.Seen.{broken_row, known_row};

use expression_rows::Broken;
use node_facts::NodeFact;

/// The row of specifiers, by which no rule fails.
#[derive(Clone, Copy)]
pub struct TagRow {
    /// What is known of them: nothing where they break a constraint, or what is asked of a part isn't known.
    pub fact: NodeFact,
    /// Of the constraints that they break the least, by the token and then by the number of the error.
    pub broken: Option<Broken>,
}

impl TagRow {
    /// This is known, and nothing is broken.
    pub fn known(fact: NodeFact) -> TagRow
        ensures { result ≡ known_row fact }
    {
        TagRow { fact, broken: None }
    }

    /// Nothing is known, since this is broken.
    pub fn breaks(broken: Broken) -> TagRow
        ensures { result ≡ broken_row broken }
    {
        TagRow {
            fact: NodeFact::Unknown,
            broken: Some(broken),
        }
    }
}
