// What the grammar sees of a token. Its place and what its name is bound to aren't known here.
use sparse_model::NameId;
use vocabulary::{ErrorKind, TokenClass};

/// A token as the grammar sees it.
#[derive(Clone, Copy, Debug, PartialEq, Eq)]
pub struct Terminal {
    /// The index of the token in the unit.
    pub index: u32,
    /// Its class, where a name is none of a type.
    pub class: TokenClass,
    /// The id of its spelling.
    pub name: NameId,
    /// What it is refused for where nothing goes on with it.
    pub refusal: Option<ErrorKind>,
}
